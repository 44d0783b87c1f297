// A verdict as numbers alone: a refusal, whose number is 0 where there is none.
#![tactic(auto)]

ghost use Rattle.std.specs.Prelude.{◌≡◌};
ghost use Rattle.flat_refusal.specs.Refusals.{no_refusal, refusal_of};

use wire::verdict::Refusal;

// No refusal: its number is on no list.
pub fn fine() -> Refusal
    ensures { result ≡ no_refusal }
{
    Refusal {
        number: 0,
        first: 0,
        second: 0,
    }
}

pub fn refusal_of(verdict: Result<(), Refusal>) -> Refusal
    ensures { result ≡ refusal_of verdict }
{
    match verdict {
        Ok(()) => fine(),
        Err(r) => r,
    }
}
