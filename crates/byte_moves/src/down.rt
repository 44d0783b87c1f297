// Bytes moved down, from the first one up.
ghost use Rattle.std.specs.Prelude.{◌≡◌, ◌+◌, ◌≤◌, length};
ghost use Rattle.std.proofs.lemmas.List.Edits.{sets};
ghost use Rattle.wire.specs.Lists.{part};
ghost use Rattle.byte_moves.specs.Stages.{run, moved_down};

use crate::run::{RUN, move_run};

// The `n` bytes at `from` go to `to`, which is not higher.
pub(crate) fn move_down(b: &mut [u8], from: usize, to: usize, n: usize)
    requires { (to ≤ from) × (from + n ≤ length b.old) }
    ensures { b.new ≡ sets b.old to (part b.old from n) }
{
    let done = runs_down(b, from, to, n);
    bytes_down(b, from + done, to + done, n - done);
}

// Run by run. The answer is how many bytes went, the first ones.
fn runs_down(b: &mut [u8], from: usize, to: usize, n: usize) -> usize
    requires { (to ≤ from) × (from + n ≤ length b.old) }
    ensures { (result ≤ n) × (b.new ≡ moved_down b.old from to n result) }
{
    let mut done: usize = 0;
    while RUN <= n - done {
        move_run(b, from + done, to + done);
        done += RUN;
    }
    done
}

// Byte by byte.
fn bytes_down(b: &mut [u8], from: usize, to: usize, n: usize)
    requires { (to ≤ from) × (from + n ≤ length b.old) }
    ensures { b.new ≡ sets b.old to (part b.old from n) }
{
    for i in 0..n {
        b[to + i] = b[from + i];
    }
}
