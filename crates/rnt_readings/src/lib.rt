// The plain and the checked reading of a resolution notification section, as walks: the places of its providers and of their
// authorities.
#![tactic(auto)]

ghost use Rattle.std.specs.Prelude.{◌≡◌};
ghost use Rattle.rnt.specs.Reading.{plain, checked};
ghost use Rattle.rnt_walker.specs.Places.{places_at, walked};

use frame::Demands;
use rnt_walker::{RntPlaces, walk};
use wire::verdict::Refusal;

// The places of a section, of a provider by number and of one of its authorities by number, by the plain reading.
pub fn plain_places(s: &[u8], provider: usize, authority: usize) -> Result<RntPlaces, Refusal>
    ensures { result ≡ walked (plain s.now) (places_at s.now provider authority) }
{
    walk::read_places(s, Demands::plain(), provider, authority)
}

// The same by the checked reading.
pub fn checked_places(s: &[u8], provider: usize, authority: usize) -> Result<RntPlaces, Refusal>
    ensures { result ≡ walked (checked s.now) (places_at s.now provider authority) }
{
    let places = walk::read_places(s, Demands::checked(), provider, authority)?;
    frame_ending::check_crc(s, frame::payload_end(places.total))?;
    Ok(places)
}
