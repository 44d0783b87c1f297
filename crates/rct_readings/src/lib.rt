// The plain and the checked reading of a related content section, as walks: the places of a link and of the loop.
#![tactic(auto)]

ghost use Rattle.std.specs.Prelude.{◌≡◌};
ghost use Rattle.rct.specs.Reading.{plain, checked};
ghost use Rattle.rct_walker.specs.Places.{places_at, walked};

use frame::Demands;
use rct_walker::{RctPlaces, walk};
use wire::verdict::Refusal;

// The places of a section and of a link by number, by the plain reading.
pub fn plain_places(s: &[u8], number: usize) -> Result<RctPlaces, Refusal>
    ensures { result ≡ walked (plain s.now) (places_at s.now number) }
{
    walk::read_places(s, Demands::plain(), number)
}

// The same by the checked reading.
pub fn checked_places(s: &[u8], number: usize) -> Result<RctPlaces, Refusal>
    ensures { result ≡ walked (checked s.now) (places_at s.now number) }
{
    let places = walk::read_places(s, Demands::checked(), number)?;
    frame_ending::check_crc(s, frame::payload_end(places.total))?;
    Ok(places)
}
