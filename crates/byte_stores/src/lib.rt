// A run of bytes stored at a place.
#![tactic(auto)]

ghost use Rattle.std.specs.Prelude.{◌≡◌};
ghost use Rattle.byte_stores.specs.Stores.{room_at, put_at};

// Writes `t` into `b` from `at` on where there is room for all of it, and else nothing. The answer: whether there was.
pub fn put_at(b: &mut [u8], at: usize, t: &[u8]) -> bool
    ensures value { result ≡ room_at b.old at t.now }
    ensures b_after { b.new ≡ put_at b.old at t.now }
{
    let n = t.len();
    if b.len() < n {
        return false;
    }
    if b.len() - n < at {
        return false;
    }
    for i in 0..n {
        b[at + i] = t[i];
    }
    true
}
