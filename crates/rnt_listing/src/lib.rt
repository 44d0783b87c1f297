// The listing of a resolution notification section: a line for the section, one for each provider with one for each of its
// authorities behind it, or its refusal alone; with all its parts, lines below these. What is promised of this crate is
// that it traps on nothing and ends; the gate runs it on stored input with the programs that stand on it.
#![tactic(auto)]

mod names;

use console::Short;
use console::print::end_line;
use listing::lines::{
    put_descriptor_count, put_descriptors, put_field, put_header, put_last, put_refused,
};
use listing::options::Options;
use listing::{MOST, Program};
use names::{put_context_name, put_policy_name};
use rnt::{CridAuthority, ResolutionProvider};
use rnt_counts::{count_authorities, places_of};
use rnt_entries::AuthorityFound;
use rnt_reader::RntSection;
use spans::{Span, handed};
use std::io;
use std::io::Read;
use wire::verdict::Refusal;

const NAME: Short = *b"rntlist_________________";

const TABLE: Short = *b"resolution notification_";

// The program whose listing this is, with what its messages are printed to.
pub fn program<M>(messages: M) -> Program<M> {
    Program {
        name: NAME,
        section: TABLE,
        messages,
    }
}

fn put_section(rt: &impl Print, s: &[u8], section: RntSection, is_all: bool) -> io::Result<()> {
    let header = section.header;
    let front = header.section;
    let common = section.common_descriptors;
    put_header(rt, b"notification ", front)?;
    put_field(rt, b" context_type ", wire::wide(header.context_id_type))?;
    put_field(rt, b" providers ", section.number_of_providers)?;
    put_descriptor_count(rt, common.length)?;
    end_line(rt)?;
    if is_all {
        put_context_name(rt, header.context_id_type)?;
        put_descriptors(rt, handed(s, common))?;
    }
    Ok(())
}

fn put_authority(
    rt: &impl Print,
    s: &[u8],
    number: usize,
    authority: CridAuthority,
    is_all: bool,
) -> io::Result<()> {
    let name = authority.name;
    let descriptors = authority.descriptors;
    put_field(rt, b"authority ", number)?;
    put_field(rt, b" policy ", authority.crid_authority_policy as usize)?;
    put_descriptor_count(rt, descriptors.length)?;
    put_last(rt, b" name ", handed(s, name))?;
    if is_all {
        put_policy_name(rt, authority.crid_authority_policy)?;
        put_descriptors(rt, handed(s, descriptors))?;
    }
    Ok(())
}

// The authority at a place of a provider that ends at `end`. The answer: the place behind it.
fn put_authority_at(
    rt: &impl Print,
    s: &[u8],
    number: usize,
    end: u16,
    at: u16,
    is_all: bool,
) -> io::Result<u16> {
    let found = rnt_entries::read_authority(s, end, at);
    match found {
        Ok(AuthorityFound { authority, next }) => {
            put_authority(rt, s, number, authority, is_all)?;
            Ok(next)
        }
        Err(_) => Ok(end),
    }
}

// One walk: each authority that is read says where the next one starts.
fn put_authorities(
    rt: &impl Print,
    s: &[u8],
    count: usize,
    end: u16,
    first: u16,
    is_all: bool,
) -> io::Result<()> {
    let mut at = first;
    for number in 0..count {
        at = put_authority_at(rt, s, number, end, at, is_all)?;
    }
    Ok(())
}

fn put_provider(
    rt: &impl Print,
    s: &[u8],
    number: usize,
    provider: ResolutionProvider,
    is_all: bool,
) -> io::Result<()> {
    let name = provider.name;
    let descriptors = provider.descriptors;
    let count = count_authorities(s, provider.end, provider.authorities_at);
    put_field(rt, b"provider ", number)?;
    put_field(rt, b" authorities ", count)?;
    put_descriptor_count(rt, descriptors.length)?;
    put_last(rt, b" name ", handed(s, name))?;
    if is_all {
        put_descriptors(rt, handed(s, descriptors))?;
    }
    put_authorities(rt, s, count, provider.end, provider.authorities_at, is_all)
}

// The provider at a place of a payload that ends at `end`. The answer: the place behind it.
fn put_provider_at(
    rt: &impl Print,
    s: &[u8],
    number: usize,
    end: u16,
    at: u16,
    is_all: bool,
) -> io::Result<u16> {
    let found = rnt_entries::read_provider(s, end, at);
    match found {
        Ok(provider) => {
            put_provider(rt, s, number, provider, is_all)?;
            Ok(provider.end)
        }
        Err(_) => Ok(end),
    }
}

// So each provider does.
fn put_providers(
    rt: &impl Print,
    s: &[u8],
    count: usize,
    end: u16,
    first: u16,
    is_all: bool,
) -> io::Result<()> {
    let mut at = first;
    for number in 0..count {
        at = put_provider_at(rt, s, number, end, at, is_all)?;
    }
    Ok(())
}

fn put_whole(rt: &impl Print, s: &[u8], section: RntSection, is_all: bool) -> io::Result<()> {
    let places = places_of(section);
    put_section(rt, s, section, is_all)?;
    put_providers(
        rt,
        s,
        section.number_of_providers,
        places.end,
        places.first,
        is_all,
    )
}

fn read(s: &[u8], is_checked: bool) -> Result<RntSection, Refusal> {
    if is_checked {
        return rnt_reader::check_section(s);
    }
    rnt_reader::read_section(s)
}

// The section at the start of `s`, as the options ask.
pub fn list(rt: &impl Print, s: &[u8], options: Options) -> io::Result<()> {
    let r = read(s, options.is_checked);
    match r {
        Err(refusal) => put_refused(rt, refusal),
        Ok(section) => put_whole(rt, s, section, options.is_all),
    }
}

// The program: it lists what it reads.
pub fn run(
    rt: &impl Print,
    program: &Program<impl Print>,
    options: Options,
    input: &mut impl Read,
) -> io::Result<()> {
    let mut bytes = [0u8; MOST];
    let taken = listing::take(rt, program, options, input, &mut bytes)?;
    match taken {
        Some(length) => list(rt, handed(&bytes, Span { start: 0, length }), options),
        None => Ok(()),
    }
}
