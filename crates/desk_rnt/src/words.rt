// The records of the resolution notification section in a script's words (docs/VECTORS.md).
use console::Short;
use console::print::{put_number, put_short, say};
use desk_links::range_words::put_span;
use desk_records::header_words::put_header;
use rnt::{CridAuthority, ResolutionProvider};
use rnt_reader::RntSection;
use std::io;

// A section's word, that of its context_id, what stands before its common descriptors and behind them.
const SECTION: Short = *b" rnt____________________";

const CONTEXT: Short = *b" context=#______________";

const COMMON: Short = *b" ctype=# cres=# common=_";

const PROVIDERS: Short = *b" providers=_____________";

// What stands before a provider's name, before its descriptors and behind them.
const PROVIDER: Short = *b" prov pres=# name=______";

const PROVIDER_DESCRIPTORS: Short = *b" dres=# desc=___________";

const AUTHORITIES: Short = *b" auths=_________________";

// What stands before an authority's name, and before its descriptors.
const AUTHORITY: Short = *b" auth name=_____________";

const AUTHORITY_DESCRIPTORS: Short = *b" res=# policy=# desc=___";

// A section of the bytes `s` up to its providers.
pub fn put_section(rt: &impl Print, s: &[u8], section: RntSection) -> io::Result<()> {
    let header = section.header;
    let front = header.section;
    let common = section.common_descriptors;
    let kind = header.context_id_type as u16;
    say(rt, SECTION)?;
    put_header(rt, section.total, front, CONTEXT)?;
    put_short(
        rt,
        COMMON,
        [kind, section.reserved_common_descriptors_length, 0, 0],
    )?;
    put_span(rt, s, common)?;
    say(rt, PROVIDERS)?;
    put_number(rt, section.number_of_providers)
}

// A provider of the bytes `s` up to its authorities, of which there are so many.
pub fn put_provider(
    rt: &impl Print,
    s: &[u8],
    provider: ResolutionProvider,
    authorities: usize,
) -> io::Result<()> {
    let name = provider.name;
    let descriptors = provider.descriptors;
    put_short(rt, PROVIDER, [provider.reserved_info_length, 0, 0, 0])?;
    put_span(rt, s, name)?;
    put_short(
        rt,
        PROVIDER_DESCRIPTORS,
        [provider.reserved_descriptors_length, 0, 0, 0],
    )?;
    put_span(rt, s, descriptors)?;
    say(rt, AUTHORITIES)?;
    put_number(rt, authorities)
}

// An authority of the bytes `s`.
pub fn put_authority(rt: &impl Print, s: &[u8], authority: CridAuthority) -> io::Result<()> {
    let name = authority.name;
    let descriptors = authority.descriptors;
    say(rt, AUTHORITY)?;
    put_span(rt, s, name)?;
    put_short(
        rt,
        AUTHORITY_DESCRIPTORS,
        [authority.reserved, authority.crid_authority_policy, 0, 0],
    )?;
    put_span(rt, s, descriptors)
}
