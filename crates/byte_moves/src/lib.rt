// Bytes moved within a lent buffer, to places that may overlap those where they are: from the last one down where they go up,
// from the first one up where they go down, so that none is written over before it is read. No more than a run of them is
// under way at a time, in the processor's registers.
#![tactic(auto)]

ghost use Rattle.std.specs.Prelude.{◌≡◌};
ghost use Rattle.byte_moves.specs.Moves.{both_within, moved_within};

mod down;
mod run;
mod up;

// Moves the `n` bytes at `from` to `to` where both lie within `b`, and else nothing. The answer: whether they do.
pub fn move_within(b: &mut [u8], from: usize, to: usize, n: usize) -> bool
    ensures value { result ≡ both_within b.old from to n }
    ensures b_after { b.new ≡ moved_within b.old from to n }
{
    if b.len() < n {
        return false;
    }
    let last = b.len() - n;
    if last < from {
        return false;
    }
    if last < to {
        return false;
    }
    if from == to {
        return true;
    }
    if from < to {
        up::move_up(b, from, to, n);
    } else {
        down::move_down(b, from, to, n);
    }
    true
}
