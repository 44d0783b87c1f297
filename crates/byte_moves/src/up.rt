// Bytes moved up, from the last one down.
ghost use Rattle.std.specs.Prelude.{◌≡◌, ◌+◌, ◌≤◌, length};
ghost use Rattle.std.proofs.lemmas.List.Edits.{sets};
ghost use Rattle.wire.specs.Lists.{part};
ghost use Rattle.byte_moves.specs.Stages.{run, moved_up};

use crate::run::{RUN, move_run};

// The `n` bytes at `from` go to `to`, which is not lower.
pub(crate) fn move_up(b: &mut [u8], from: usize, to: usize, n: usize)
    requires { (from ≤ to) × (to + n ≤ length b.old) }
    ensures { b.new ≡ sets b.old to (part b.old from n) }
{
    let left = runs_up(b, from, to, n);
    bytes_up(b, from, to, left);
}

// Run by run. The answer is how many bytes are left, the first ones.
fn runs_up(b: &mut [u8], from: usize, to: usize, n: usize) -> usize
    requires { (from ≤ to) × (to + n ≤ length b.old) }
    ensures { (result ≤ n) × (b.new ≡ moved_up b.old from to n result) }
{
    let mut left = n;
    while RUN <= left {
        left -= RUN;
        move_run(b, from + left, to + left);
    }
    left
}

// Byte by byte.
fn bytes_up(b: &mut [u8], from: usize, to: usize, n: usize)
    requires { (from ≤ to) × (to + n ≤ length b.old) }
    ensures { b.new ≡ sets b.old to (part b.old from n) }
{
    for i in 0..n {
        let left = n - 1 - i;
        b[to + left] = b[from + left];
    }
}
