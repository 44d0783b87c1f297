// The providers of a section and their authorities, by number.
#![tactic(auto)]

ghost use Rattle.std.specs.Prelude.{◌≡◌};
ghost use Rattle.rnt.specs.Reading.{plain};
ghost use Rattle.rnt_walker.specs.Places.{places_at};
ghost use Rattle.rnt_providers.specs.Providers.{numbered_provider, numbered_authority};
ghost use Rattle.wire.specs.Verdict.{Fine};

use rnt::{CridAuthority, ResolutionProvider};
use rnt_entries::AuthorityFound;
use rnt_walker::RntPlaces;
use wire::verdict::Refusal;

#[derive(Drop)]
pub struct ProviderRead {
    pub provider: ResolutionProvider,
    pub number_of_authorities: usize,
}

// Provider `number` of an accepted section.
fn provider_at(s: &[u8], places: RntPlaces, number: usize) -> Result<ProviderRead, Refusal>
    requires { (places ≡ places_at s.now number 0) × (plain s.now ≡ Fine) }
    ensures { result ≡ numbered_provider s.now number }
{
    if places.providers <= number {
        return Err(Refusal {
            number: Refusal::NO_SUCH_NUMBER,
            first: number,
            second: places.providers,
        });
    }
    let end = frame::payload_end(places.total) as u16;
    let provider = rnt_entries::read_provider(s, end, places.provider_at as u16)?;
    Ok(ProviderRead {
        provider,
        number_of_authorities: places.authorities,
    })
}

// Provider by number: the plain reading, then 21 (number, count).
pub fn read_provider(s: &[u8], number: usize) -> Result<ProviderRead, Refusal>
    ensures { result ≡ numbered_provider s.now number }
{
    let places = rnt_readings::plain_places(s, number, 0)?;
    provider_at(s, places, number)
}

// Authority `authority` of provider `number` of an accepted section. It lies within its provider, hence within the payload.
fn authority_at(
    s: &[u8],
    places: RntPlaces,
    number: usize,
    authority: usize,
) -> Result<CridAuthority, Refusal>
    requires { (places ≡ places_at s.now number authority) × (plain s.now ≡ Fine) }
    ensures { result ≡ numbered_authority s.now number authority }
{
    if places.providers <= number {
        return Err(Refusal {
            number: Refusal::NO_SUCH_NUMBER,
            first: number,
            second: places.providers,
        });
    }
    if places.authorities <= authority {
        return Err(Refusal {
            number: Refusal::NO_SUCH_NUMBER,
            first: authority,
            second: places.authorities,
        });
    }
    let end = frame::payload_end(places.total) as u16;
    let found = rnt_entries::read_authority(s, end, places.authority_at as u16)?;
    Ok(found.authority)
}

// Authority by number: 21 for the provider, then for the authority.
pub fn read_authority(s: &[u8], number: usize, authority: usize) -> Result<CridAuthority, Refusal>
    ensures { result ≡ numbered_authority s.now number authority }
{
    let places = rnt_readings::plain_places(s, number, authority)?;
    authority_at(s, places, number, authority)
}
