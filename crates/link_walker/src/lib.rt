// Walking over a link's body, a slice of its own: places are counted from its first byte. The walk checks all of it, so that
// what is then read at its places is known to be there.
#![tactic(auto)]

ghost use Rattle.std.specs.Prelude.{◌≡◌};
ghost use Rattle.link.specs.Reading.{body_verdict};
ghost use Rattle.link_walker.specs.Places.{body_places};

use wire::verdict::Refusal;

mod walk;

// The places of a body that is accepted: where its URI ends, the byte with the items' number, and its tail.
#[derive(Drop)]
pub struct BodyPlaces {
    pub uri_end: usize,
    pub count_at: usize,
    pub tail: usize,
}

// Where the parts of a body stand, or its refusal: 6 to 16.
pub fn body_places(s: &[u8]) -> Result<BodyPlaces, Refusal>
    ensures { result ≡ body_places s.now }
{
    let uri_end = walk::past_uri(s)?;
    let count_at = walk::past_locator(s, uri_end)?;
    let tail = walk::past_rest(s, count_at)?;
    Ok(BodyPlaces {
        uri_end,
        count_at,
        tail,
    })
}

// The same, for the reading of a link's fields alone: what is called from one place is compiled into it, and the walk over
// links spares the call and the answer's stores.
pub fn fields_places(s: &[u8]) -> Result<BodyPlaces, Refusal>
    ensures { result ≡ body_places s.now }
{
    let uri_end = walk::past_uri(s)?;
    let front = walk::past_locator(s, uri_end)?;
    let tail = walk::past_rest(s, front)?;
    Ok(BodyPlaces {
        uri_end,
        count_at: front,
        tail,
    })
}

// A body's verdict: the same rows, by the same stages. The places are not asked for and dropped, since the compiler builds
// them wherever it does not inline `body_places`.
pub fn check_body(s: &[u8]) -> Result<(), Refusal>
    ensures { result ≡ body_verdict s.now }
{
    let uri_end = walk::past_uri(s)?;
    let count = walk::past_locator(s, uri_end)?;
    walk::past_rest(s, count)?;
    Ok(())
}
