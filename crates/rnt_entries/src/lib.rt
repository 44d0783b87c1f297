// A provider and an authority by their places: from one place to the next they walk over a section in one pass.
#![tactic(auto)]

ghost use Rattle.std.specs.Prelude.{◌≡◌, ◌≤◌, length};
ghost use Rattle.rnt.specs.Reading.{named_end};
ghost use Rattle.rnt_entries.specs.Entries.{provider_from, authority_from};
ghost use Rattle.rnt_entries.specs.Stages.{named_info};

use length_field::LengthField;
use rnt::{CridAuthority, ResolutionProvider};
use rnt_heads::Headed;
use spans::Span;
use wire::verdict::Refusal;

// An authority and the place behind it.
#[derive(Drop)]
pub struct AuthorityFound {
    pub authority: CridAuthority,
    pub next: u16,
}

// Where a name and the descriptors behind it stand, and the four bits before the length of these.
#[derive(Drop)]
struct NamedPlaces {
    name: Span,
    beside: u8,
    descriptors: Span,
}

fn named_at(s: &[u8], p: usize) -> NamedPlaces
    requires { named_end s.now p ≤ length s.now }
    ensures { result ≡ named_info s.now p }
{
    let size = wire::wide(s[p]);
    let behind = p + 1 + size;
    let field = LengthField::of_bytes(s[behind], s[behind + 1]);
    NamedPlaces {
        name: Span {
            start: p + 1,
            length: size,
        },
        beside: field.beside,
        descriptors: Span {
            start: behind + LengthField::BYTES,
            length: field.length,
        },
    }
}

// The provider at a place of a section whose payload ends at `end`, its authorities not looked at: 42 to 45.
pub fn read_provider(s: &[u8], end: u16, at: u16) -> Result<ResolutionProvider, Refusal>
    ensures { result ≡ provider_from s.now end at }
{
    let p = at as usize;
    let head = rnt_heads::past_head(s, end as usize, at)?;
    let field = LengthField::of_bytes(s[p], s[p + 1]);
    let named = named_at(s, p + LengthField::BYTES);
    let name = named.name;
    let descriptors = named.descriptors;
    Ok(ResolutionProvider {
        reserved_info_length: field.beside as u16,
        name,
        reserved_descriptors_length: named.beside as u16,
        descriptors,
        authorities_at: head.first as u16,
        end: head.end as u16,
    })
}

// The authority at a place of a section, of a provider that ends at `end`: 46.
pub fn read_authority(s: &[u8], end: u16, at: u16) -> Result<AuthorityFound, Refusal>
    ensures { result ≡ authority_from s.now end at }
{
    let p = at as usize;
    let next = rnt_heads::past_authority(s, end as usize, at)?;
    let named = named_at(s, p);
    let name = named.name;
    let descriptors = named.descriptors;
    Ok(AuthorityFound {
        authority: CridAuthority {
            name,
            reserved: (named.beside / CridAuthority::POLICIES) as u16,
            crid_authority_policy: (named.beside % CridAuthority::POLICIES) as u16,
            descriptors,
        },
        next: next as u16,
    })
}
