// The parts of an authority that are handed back: each is that part of the lent slice itself, or nothing where there is none.
// Why there is none, the calls by number answer.
#![tactic(auto)]

ghost use Rattle.std.specs.Prelude.{◌≡◌};
ghost use Rattle.wire.specs.Lists.{within};
ghost use Rattle.spans.specs.Spans.{span_of};
ghost use Rattle.rnt_authority_parts.specs.Parts.{authority_name_of, authority_descriptors_of, authority_name, authority_descriptors};

use rnt::CridAuthority;
use rnt_parts::NOTHING;
use spans::{Span, handed};
use wire::verdict::Refusal;

fn authority_name_of(read: Result<CridAuthority, Refusal>) -> Span
    ensures { result ≡ authority_name_of read }
{
    match read {
        Ok(authority) => authority.name,
        Err(_) => NOTHING,
    }
}

fn authority_descriptors_of(read: Result<CridAuthority, Refusal>) -> Span
    ensures { result ≡ authority_descriptors_of read }
{
    match read {
        Ok(authority) => authority.descriptors,
        Err(_) => NOTHING,
    }
}

// The name of an authority by number, of a provider by number.
pub fn authority_name(s: &[u8], number: usize, authority: usize) -> &[u8]
    ensures result_value { result.now ≡ span_of s.now (authority_name s.now number authority) }
    ensures ref_ptr_value { result.ref_ptr ≡ within s.entry.ref_ptr (authority_name s.now number authority).start }
{
    handed(
        s,
        authority_name_of(rnt_providers::read_authority(s, number, authority)),
    )
}

// The descriptors of an authority by number, of a provider by number.
pub fn authority_descriptors(s: &[u8], number: usize, authority: usize) -> &[u8]
    ensures result_value { result.now ≡ span_of s.now (authority_descriptors s.now number authority) }
    ensures ref_ptr_value { result.ref_ptr ≡ within s.entry.ref_ptr (authority_descriptors s.now number authority).start }
{
    handed(
        s,
        authority_descriptors_of(rnt_providers::read_authority(s, number, authority)),
    )
}
