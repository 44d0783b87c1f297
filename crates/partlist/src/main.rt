// Lists the related content section on standard input and, to base 16, every part of it that a call hands back: also the
// empty ones of an item and of a link past the last. Then it lists the same bytes without the last one.
#![tactic(auto)]

use console::Short;
use console::input::read_full;
use console::print::{end_line, put_hex, put_number, say};
use listing::options::Options;
use rct_parts::{link_body, link_descriptors, loop_descriptors, media_uri, promotional_text};
use std::io;

const LINK: Short = *b"link ___________________";

const ITEM: Short = *b" item __________________";

const BODY: Short = *b" body __________________";

const URI: Short = *b" uri ___________________";

const TEXT: Short = *b" text __________________";

const DESCRIPTORS: Short = *b" descriptors ___________";

const LOOP: Short = *b"loop ___________________";

fn put_part(rt: &impl Print, name: Short, part: &[u8]) -> io::Result<()> {
    say(rt, name)?;
    put_hex(rt, part)?;
    end_line(rt)
}

fn put_link_part(rt: &impl Print, link: usize, name: Short, part: &[u8]) -> io::Result<()> {
    say(rt, LINK)?;
    put_number(rt, link)?;
    put_part(rt, name, part)
}

fn put_text(rt: &impl Print, s: &[u8], link: usize, item: usize) -> io::Result<()> {
    say(rt, LINK)?;
    put_number(rt, link)?;
    say(rt, ITEM)?;
    put_number(rt, item)?;
    put_part(rt, TEXT, promotional_text(s, link, item))
}

fn put_texts(rt: &impl Print, s: &[u8], link: usize, count: usize) -> io::Result<()> {
    for item in 0..count {
        put_text(rt, s, link, item)?;
    }
    put_text(rt, s, link, count)
}

// The number of items, which a refused link has none of.
fn count_items(s: &[u8], link: usize) -> usize {
    match rct_links::read_link(s, link) {
        Ok(read) => read.fields.number_items,
        Err(_) => 0,
    }
}

fn put_link(rt: &impl Print, s: &[u8], link: usize) -> io::Result<()> {
    put_link_part(rt, link, BODY, link_body(s, link))?;
    put_link_part(rt, link, URI, media_uri(s, link))?;
    put_texts(rt, s, link, count_items(s, link))?;
    put_link_part(rt, link, DESCRIPTORS, link_descriptors(s, link))
}

fn put_links(rt: &impl Print, s: &[u8], count: usize) -> io::Result<()> {
    for link in 0..count {
        put_link(rt, s, link)?;
    }
    put_link(rt, s, count)
}

// The number of links, which a refused section has none of.
fn count_links(s: &[u8]) -> usize {
    match rct_reader::read_section(s) {
        Ok(section) => section.number_of_links,
        Err(_) => 0,
    }
}

fn list(rt: &impl Print, s: &[u8]) -> io::Result<()> {
    rct_listing::list(rt, s, Options::none())?;
    put_links(rt, s, count_links(s))?;
    put_part(rt, LOOP, loop_descriptors(s))
}

fn list_without_last(rt: &impl Print, s: &[u8]) -> io::Result<()> {
    if s.len() > 0 {
        let end = s.len() - 1;
        rct_listing::list(rt, &s[0..end], Options::none())?;
    }
    Ok(())
}

fn main(rt: HostRuntime) -> io::Result<()> {
    let mut input = [0u8; listing::MOST];
    let count = read_full(&mut rt.stdin(), &mut input)?;
    list(&rt, &input[..count])?;
    list_without_last(&rt, &input[..count])
}
