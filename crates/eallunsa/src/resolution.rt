// Reading a resolution notification section.
ghost use Rattle.std.specs.Prelude.{◌≡◌};
ghost use Rattle.rnt.specs.Reading.{plain, checked};
ghost use Rattle.rnt_entries.specs.Entries.{provider_from, authority_from};
ghost use Rattle.rnt_reader.specs.Sections.{section_read};
ghost use Rattle.rnt_providers.specs.Providers.{numbered_provider, numbered_authority};
ghost use Rattle.flat_sections.specs.Sections.{rnt_answer};
ghost use Rattle.flat_answers.specs.Providers.{provider_answer, provider_found_answer, authority_answer, authority_found_answer};

use flat_answers::providers::{
    AuthorityAnswer, AuthorityFoundAnswer, ProviderAnswer, ProviderFoundAnswer,
};
use flat_sections::RntAnswer;

// The plain reading.
#[unsafe(no_mangle)]
pub extern "C" fn eallunsa_rnt_read(s: &[u8]) -> RntAnswer
    ensures { result ≡ rnt_answer (section_read (plain s.now) s.now) }
{
    RntAnswer::of(rnt_reader::read_section(s))
}

// The checked reading.
#[unsafe(no_mangle)]
pub extern "C" fn eallunsa_rnt_check(s: &[u8]) -> RntAnswer
    ensures { result ≡ rnt_answer (section_read (checked s.now) s.now) }
{
    RntAnswer::of(rnt_reader::check_section(s))
}

// Provider by number.
#[unsafe(no_mangle)]
pub extern "C" fn eallunsa_rnt_provider(s: &[u8], number: usize) -> ProviderAnswer
    ensures { result ≡ provider_answer (numbered_provider s.now number) }
{
    ProviderAnswer::of(rnt_providers::read_provider(s, number))
}

// Authority by number.
#[unsafe(no_mangle)]
pub extern "C" fn eallunsa_rnt_authority(
    s: &[u8],
    number: usize,
    authority: usize,
) -> AuthorityAnswer
    ensures { result ≡ authority_answer (numbered_authority s.now number authority) }
{
    AuthorityAnswer::of(rnt_providers::read_authority(s, number, authority))
}

// The provider at a place of a section whose payload ends at `end`: from the end of one to the next it walks over all.
#[unsafe(no_mangle)]
pub extern "C" fn eallunsa_rnt_provider_at(s: &[u8], end: u16, at: u16) -> ProviderFoundAnswer
    ensures { result ≡ provider_found_answer (provider_from s.now end at) }
{
    ProviderFoundAnswer::of(rnt_entries::read_provider(s, end, at))
}

// The authority at a place of a section, of a provider that ends at `end`.
#[unsafe(no_mangle)]
pub extern "C" fn eallunsa_rnt_authority_at(s: &[u8], end: u16, at: u16) -> AuthorityFoundAnswer
    ensures { result ≡ authority_found_answer (authority_from s.now end at) }
{
    AuthorityFoundAnswer::of(rnt_entries::read_authority(s, end, at))
}
