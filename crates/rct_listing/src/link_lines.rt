// The lines of a link: its own, and those of its parts below it.
use crate::locator_line::put_locator;
use crate::part;
use console::Short;
use console::print::{end_line, put_text, say};
use link::reading::ItemStep;
use link::{LangCode, LinkFields, LinkItem, Range};
use link_names::link_type::LinkType;
use listing::lines::{put_descriptor_count, put_descriptors, put_field, put_last};
use locator::DvbBinaryLocator;
use name_words::{scheme_name, type_name};
use scheme_names::HowRelated;
use std::io;

pub(crate) fn put_link(rt: &impl Print, number: usize, link: LinkFields) -> io::Result<()> {
    let descriptors = link.descriptors;
    put_field(rt, b"link ", number)?;
    put_field(rt, b" type ", link.link_type as usize)?;
    put_field(rt, b" related ", link.how_related as usize)?;
    put_field(rt, b" term ", link.term_id as usize)?;
    put_field(rt, b" group ", link.group_id as usize)?;
    put_field(rt, b" precedence ", link.precedence as usize)?;
    put_field(rt, b" items ", link.number_items)?;
    put_field(rt, b" default ", link.default_icon_flag as usize)?;
    put_field(rt, b" icon ", link.icon_id as usize)?;
    put_descriptor_count(rt, descriptors.length as usize)?;
    end_line(rt)
}

fn put_name(rt: &impl Print, of: &[u8], name: Short) -> io::Result<()> {
    put_text(rt, of)?;
    say(rt, name)?;
    end_line(rt)
}

fn put_type(rt: &impl Print, named: Option<LinkType>) -> io::Result<()> {
    match named {
        None => Ok(()),
        Some(t) => put_name(rt, b"  type_name ", type_name(t)),
    }
}

fn put_scheme(rt: &impl Print, named: Option<HowRelated>) -> io::Result<()> {
    match named {
        None => Ok(()),
        Some(h) => put_name(rt, b"  related_name ", scheme_name(h)),
    }
}

fn put_uri(rt: &impl Print, payload: &[u8], uri: Option<Range>) -> io::Result<()> {
    match uri {
        None => Ok(()),
        Some(range) => put_last(rt, b"  uri ", part(payload, range)),
    }
}

fn put_link_locator(rt: &impl Print, locator: Option<DvbBinaryLocator>) -> io::Result<()> {
    match locator {
        None => Ok(()),
        Some(present) => put_locator(rt, present),
    }
}

fn put_language(rt: &impl Print, code: LangCode) -> io::Result<()> {
    put_text(rt, b" language ")?;
    put_text(rt, &[code.first, code.second, code.third])
}

fn put_item(rt: &impl Print, payload: &[u8], number: usize, item: LinkItem) -> io::Result<()> {
    let language = item.language_code;
    let text = item.promotional_text;
    put_field(rt, b"  item ", number)?;
    put_language(rt, language)?;
    put_last(rt, b" text ", part(payload, text))
}

// The item at a place. The answer: the place behind it.
fn put_item_at(rt: &impl Print, payload: &[u8], number: usize, at: u32) -> io::Result<u32> {
    let step = link_reader::item_from(payload, at);
    match step {
        Ok(ItemStep { item, next }) => {
            put_item(rt, payload, number, item)?;
            Ok(next)
        }
        Err(_) => Ok(at),
    }
}

// One walk: each item that is read says where the next one starts.
fn put_items(rt: &impl Print, payload: &[u8], count: usize, items_at: u32) -> io::Result<()> {
    let mut at = items_at;
    for number in 0..count {
        at = put_item_at(rt, payload, number, at)?;
    }
    Ok(())
}

// The parts of a link in the order in which they stand in it, the names of its numbers first.
pub(crate) fn put_parts(
    rt: &impl Print,
    payload: &[u8],
    link: LinkFields,
    items_at: u32,
) -> io::Result<()> {
    let uri = link.media_uri;
    let locator = link.dvb_binary_locator;
    let descriptors = link.descriptors;
    put_type(rt, LinkType::of_number(link.link_type))?;
    put_scheme(rt, HowRelated::of_number(link.how_related))?;
    put_uri(rt, payload, uri)?;
    put_link_locator(rt, locator)?;
    put_items(rt, payload, link.number_items, items_at)?;
    put_descriptors(rt, part(payload, descriptors))
}
