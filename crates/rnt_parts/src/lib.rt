// The common descriptors and the parts of a provider that are handed back: each is that part of the lent slice itself, or nothing where there is none.
// Why there is none, the readings and the calls by number answer.
#![tactic(auto)]

ghost use Rattle.std.specs.Prelude.{◌≡◌};
ghost use Rattle.wire.specs.Lists.{within};
ghost use Rattle.spans.specs.Spans.{span_of};
ghost use Rattle.rnt_parts.specs.Parts.{common_of, provider_name_of, provider_descriptors_of, common_span, provider_name, provider_descriptors};

use rnt_providers::ProviderRead;
use rnt_reader::RntSection;
use spans::{Span, handed};
use wire::verdict::Refusal;

// What is handed back where there is no such part: nothing, at the section's start.
pub const NOTHING: Span = Span {
    start: 0,
    length: 0,
};

fn common_of(read: Result<RntSection, Refusal>) -> Span
    ensures { result ≡ common_of read }
{
    match read {
        Ok(section) => section.common_descriptors,
        Err(_) => NOTHING,
    }
}

fn provider_name_of(read: Result<ProviderRead, Refusal>) -> Span
    ensures { result ≡ provider_name_of read }
{
    match read {
        Ok(
            ProviderRead {
                provider,
                number_of_authorities: _,
            },
        ) => provider.name,
        Err(_) => NOTHING,
    }
}

fn provider_descriptors_of(read: Result<ProviderRead, Refusal>) -> Span
    ensures { result ≡ provider_descriptors_of read }
{
    match read {
        Ok(
            ProviderRead {
                provider,
                number_of_authorities: _,
            },
        ) => provider.descriptors,
        Err(_) => NOTHING,
    }
}

// The section's common descriptors.
pub fn common_descriptors(s: &[u8]) -> &[u8]
    ensures result_value { result.now ≡ span_of s.now (common_span s.now) }
    ensures ref_ptr_value { result.ref_ptr ≡ within s.entry.ref_ptr (common_span s.now).start }
{
    handed(s, common_of(rnt_reader::read_section(s)))
}

// The name of a provider by number.
pub fn provider_name(s: &[u8], number: usize) -> &[u8]
    ensures result_value { result.now ≡ span_of s.now (provider_name s.now number) }
    ensures ref_ptr_value { result.ref_ptr ≡ within s.entry.ref_ptr (provider_name s.now number).start }
{
    handed(s, provider_name_of(rnt_providers::read_provider(s, number)))
}

// The descriptors of a provider by number.
pub fn provider_descriptors(s: &[u8], number: usize) -> &[u8]
    ensures result_value { result.now ≡ span_of s.now (provider_descriptors s.now number) }
    ensures ref_ptr_value { result.ref_ptr ≡ within s.entry.ref_ptr (provider_descriptors s.now number).start }
{
    handed(
        s,
        provider_descriptors_of(rnt_providers::read_provider(s, number)),
    )
}
