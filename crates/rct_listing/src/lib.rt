// The listing of a related content section: a line for the section, one for each link, or its refusal alone; with all its
// parts, lines below these. What is promised of this crate is that it traps on nothing and ends; the gate runs it on stored
// input with the programs that stand on it.
#![tactic(auto)]

mod link_lines;
mod locator_line;

use console::Short;
use console::print::end_line;
use link::Range;
use link_lines::{put_link, put_parts};
use listing::lines::{put_descriptor_count, put_descriptors, put_field, put_header, put_refused};
use listing::options::Options;
use listing::{MOST, Program};
use rct::RctHeader;
use rct_entries::EntryRead;
use rct_reader::RctSection;
use spans::{Span, handed};
use std::io;
use std::io::Read;
use wire::verdict::Refusal;

const NAME: Short = *b"rctlist_________________";

const TABLE: Short = *b"related content_________";

// The program whose listing this is, with what its messages are printed to.
pub fn program<M>(messages: M) -> Program<M> {
    Program {
        name: NAME,
        section: TABLE,
        messages,
    }
}

// A range of a payload.
pub(crate) fn part(payload: &[u8], range: Range) -> &[u8] {
    let start = range.start as usize;
    let length = range.length as usize;
    handed(payload, Span { start, length })
}

fn put_section(rt: &impl Print, payload: &[u8], r: RctSection, is_all: bool) -> io::Result<()> {
    let header = r.header;
    let section = header.section;
    let descriptors = r.descriptors;
    put_header(rt, b"section ", section)?;
    put_field(rt, b" year ", header.year_offset as usize)?;
    put_field(rt, b" links ", r.number_of_links)?;
    put_descriptor_count(rt, descriptors.length as usize)?;
    end_line(rt)?;
    if is_all {
        put_descriptors(rt, part(payload, descriptors))?;
    }
    Ok(())
}

// The link at a place. The answer: the place behind its entry.
fn put_link_at(
    rt: &impl Print,
    payload: &[u8],
    number: usize,
    at: u16,
    is_all: bool,
) -> io::Result<u16> {
    let entry = rct_entries::read_entry(payload, at);
    match entry {
        Ok(
            EntryRead {
                fields,
                items_at,
                next,
            },
        ) => {
            put_link(rt, number, fields)?;
            if is_all {
                put_parts(rt, payload, fields, items_at)?;
            }
            Ok(next)
        }
        Err(_) => Ok(at),
    }
}

// One walk: each entry that is read says where the next one starts.
fn put_links(rt: &impl Print, payload: &[u8], count: usize, is_all: bool) -> io::Result<()> {
    let mut at = RctHeader::HEAD as u16;
    for number in 0..count {
        at = put_link_at(rt, payload, number, at, is_all)?;
    }
    Ok(())
}

fn put_whole(rt: &impl Print, payload: &[u8], r: RctSection, is_all: bool) -> io::Result<()> {
    put_section(rt, payload, r, is_all)?;
    put_links(rt, payload, r.number_of_links, is_all)
}

fn read(s: &[u8], is_checked: bool) -> Result<RctSection, Refusal> {
    if is_checked {
        return rct_reader::check_section(s);
    }
    rct_reader::read_section(s)
}

// The section at the start of `s`, as the options ask.
pub fn list(rt: &impl Print, s: &[u8], options: Options) -> io::Result<()> {
    let r = read(s, options.is_checked);
    match r {
        Err(refusal) => put_refused(rt, refusal),
        Ok(section) => {
            let length = frame::payload_end(section.total);
            put_whole(
                rt,
                handed(s, Span { start: 0, length }),
                section,
                options.is_all,
            )
        }
    }
}

// The program: it lists what it reads.
pub fn run(
    rt: &impl Print,
    program: &Program<impl Print>,
    options: Options,
    input: &mut impl Read,
) -> io::Result<()> {
    let mut bytes = [0u8; MOST];
    let taken = listing::take(rt, program, options, input, &mut bytes)?;
    match taken {
        Some(length) => list(rt, handed(&bytes, Span { start: 0, length }), options),
        None => Ok(()),
    }
}
