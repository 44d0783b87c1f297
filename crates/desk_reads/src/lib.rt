// The calls of a script that read the lent buffer: plain, checked, link and item. What is promised of this crate is that it
// traps on nothing and ends; the gate runs it on stored input with rctdesk.
#![tactic(auto)]

use console::Short;
use console::print::{put_refusal, say};
use desk_links::link_words::{put_before_items, put_behind_items, put_item, put_link};
use desk_records::section_words::put_section;
use frame::payload_end;
use link::reading::ItemStep;
use link::{LinkInfo, LinkItem};
use rct::RctHeader;
use rct_entries::EntryRead;
use rct_reader::RctSection;
use script::calls::{NUMBER, NUMBERS, OK, Stop, call_of};
use script::read::read_short;
use script::scan::Scan;
use spans::{Span, handed};
use std::io;
use wire::verdict::Refusal;

// The calls of this crate.
#[derive(Clone, Copy)]
enum Call {
    Plain,
    Checked,
    Link,
    Item,
}

const CALLS: [(Short, Call); 4] = [
    (*b"plain___________________", Call::Plain),
    (*b"checked_________________", Call::Checked),
    (*b"link____________________", Call::Link),
    (*b"item____________________", Call::Item),
];

// The item at a place. The answer: the place behind it.
fn put_item_at(rt: &impl Print, s: &[u8], at: u32) -> io::Result<u32> {
    let step = link_reader::item_from(s, at);
    match step {
        Ok(ItemStep { item, next }) => {
            put_item(rt, s, item)?;
            Ok(next)
        }
        Err(_) => Ok(at),
    }
}

// One walk: each item that is read says where the next one starts.
fn put_items(rt: &impl Print, s: &[u8], count: usize, first: u32) -> io::Result<()> {
    let mut at = first;
    for _ in 0..count {
        at = put_item_at(rt, s, at)?;
    }
    Ok(())
}

// The link at a place. The answer: the place behind its entry.
fn put_link_at(rt: &impl Print, payload: &[u8], at: u16) -> io::Result<u16> {
    let entry = rct_entries::read_entry(payload, at);
    match entry {
        Ok(
            EntryRead {
                fields,
                items_at,
                next,
            },
        ) => {
            put_before_items(rt, payload, fields)?;
            put_items(rt, payload, fields.number_items, items_at)?;
            put_behind_items(rt, payload, fields)?;
            Ok(next)
        }
        Err(_) => Ok(at),
    }
}

// So each entry does.
fn put_links(rt: &impl Print, payload: &[u8], count: usize) -> io::Result<()> {
    let mut at = RctHeader::HEAD as u16;
    for _ in 0..count {
        at = put_link_at(rt, payload, at)?;
    }
    Ok(())
}

fn put_whole(rt: &impl Print, s: &[u8], r: RctSection) -> io::Result<()> {
    let header = r.header;
    let reserved = r.reserved_descriptor_loop_length;
    let descriptors = r.descriptors;
    let count = r.number_of_links;
    let length = payload_end(r.total);
    say(rt, OK)?;
    put_section(rt, s, r.total, header, reserved, descriptors, count)?;
    put_links(rt, handed(s, Span { start: 0, length }), count)
}

fn put_read(rt: &impl Print, s: &[u8], r: Result<RctSection, Refusal>) -> io::Result<()> {
    match r {
        Err(refusal) => put_refusal(rt, refusal),
        Ok(section) => put_whole(rt, s, section),
    }
}

fn plain(rt: &impl Print, scan: Scan<'_>, s: &[u8]) -> Result<(), Stop> {
    scan.end()?;
    put_read(rt, s, rct_reader::read_section(s))?;
    Ok(())
}

fn checked(rt: &impl Print, scan: Scan<'_>, s: &[u8]) -> Result<(), Stop> {
    scan.end()?;
    put_read(rt, s, rct_reader::check_section(s))?;
    Ok(())
}

fn put_link_read(rt: &impl Print, s: &[u8], r: Result<LinkInfo, Refusal>) -> io::Result<()> {
    match r {
        Err(refusal) => put_refusal(rt, refusal),
        Ok(link) => {
            say(rt, OK)?;
            put_link(rt, s, link)
        }
    }
}

fn link(rt: &impl Print, mut scan: Scan<'_>, s: &[u8]) -> Result<(), Stop> {
    let numbers = read_short(&mut scan, NUMBER)?;
    scan.end()?;
    put_link_read(rt, s, rct_links::read_link(s, numbers[0] as usize))?;
    Ok(())
}

fn put_item_read(rt: &impl Print, s: &[u8], r: Result<LinkItem, Refusal>) -> io::Result<()> {
    match r {
        Err(refusal) => put_refusal(rt, refusal),
        Ok(item) => {
            say(rt, OK)?;
            put_item(rt, s, item)
        }
    }
}

fn item(rt: &impl Print, mut scan: Scan<'_>, s: &[u8]) -> Result<(), Stop> {
    let numbers = read_short(&mut scan, NUMBERS)?;
    scan.end()?;
    let read = rct_links::read_item(s, numbers[0] as usize, numbers[1] as usize);
    put_item_read(rt, s, read)?;
    Ok(())
}

// Carries out the call that a line has, if it is one of these. The answer: whether it is.
// The crate desk_rnt has the same over its own calls: one function for both would be public, take a closure and ask of callers
// that it may be called.
pub fn carry_out(rt: &impl Print, line: &[u8], s: &[u8]) -> Result<bool, Stop> {
    let Some((call, scan)) = call_of(line, &CALLS) else {
        return Ok(false);
    };
    match call {
        Call::Plain => plain(rt, scan, s)?,
        Call::Checked => checked(rt, scan, s)?,
        Call::Link => link(rt, scan, s)?,
        Call::Item => item(rt, scan, s)?,
    }
    Ok(true)
}
