// A link and its items.
use crate::locator_words::{put_locator, put_optional, read_locator, read_optional};
use crate::range_words::{put_range, read_range};
use console::Short;
use console::print::{put, put_number, put_short, say};
use link::{LangCode, LinkFields, LinkInfo, LinkItem};
use script::form::Part;
use script::read::{Numbers, goes_on, read, read_short};
use script::scan::{Fault, Scan};
use std::io;

// What comes before the URI, before the locator, between it and the number of items, and behind the items.
const HEAD: [u8; 63] = *b" link lres=# type=# tres=# related=# term=# group=# prec=# uri=";

const LOC: Short = *b" loc=___________________";

const ITEMS: Short = *b" ires=# items=__________";

const TAIL: Short = *b" default=? icon=# desc=_";

// An item's word, and its language.
const ITEM: Short = *b" item=__________________";

const LANGUAGE: Short = *b"***:____________________";

fn language_of(n: Numbers) -> LangCode {
    LangCode {
        first: (n[0] % 256) as u8,
        second: (n[1] % 256) as u8,
        third: (n[2] % 256) as u8,
    }
}

fn read_item(scan: &mut Scan<'_>) -> Result<LinkItem, Fault> {
    let language = read_short(scan, LANGUAGE)?;
    let promotional_text = read_range(scan)?;
    Ok(LinkItem {
        language_code: language_of(language),
        promotional_text,
    })
}

pub fn put_item(rt: &impl Print, s: &[u8], item: LinkItem) -> io::Result<()> {
    let language = item.language_code;
    let text = item.promotional_text;
    say(rt, ITEM)?;
    put_short(
        rt,
        LANGUAGE,
        [
            language.first as u16,
            language.second as u16,
            language.third as u16,
            0,
        ],
    )?;
    put_range(rt, s, text)
}

// As many items as there are words for; those that the record has no room for are passed over, missing ones are none.
fn read_items(scan: &mut Scan<'_>) -> Result<[LinkItem; LinkInfo::MOST_ITEMS], Fault> {
    let mut items = [LinkItem::none(); LinkInfo::MOST_ITEMS];
    for i in 0..scan.line.len() {
        if !goes_on(scan, ITEM) {
            return Ok(items);
        }
        let item = read_item(scan)?;
        if i < LinkInfo::MOST_ITEMS {
            items[i] = item;
        }
    }
    Ok(items)
}

fn put_items(rt: &impl Print, s: &[u8], link: LinkInfo) -> io::Result<()> {
    for i in 0..LinkInfo::MOST_ITEMS {
        if i >= link.fields.number_items {
            return Ok(());
        }
        let item = link.items[i];
        put_item(rt, s, item)?;
    }
    Ok(())
}

pub fn read_link(scan: &mut Scan<'_>) -> Result<LinkInfo, Fault> {
    let head = read(scan, &HEAD)?;
    let media_uri = read_optional(scan, |scan| read_range(scan))?;
    read_short(scan, LOC)?;
    let dvb_binary_locator = read_optional(scan, |scan| read_locator(scan))?;
    let counts = read_short(scan, ITEMS)?;
    let number_items = scan.number(Part::number(u16::MAX))?;
    let items = read_items(scan)?;
    let tail = read_short(scan, TAIL)?;
    let descriptors = read_range(scan)?;
    let fields = LinkFields {
        reserved_link_info_length: head[0],
        link_type: head[1],
        reserved_link_type: head[2],
        how_related: head[3],
        term_id: head[4],
        group_id: head[5],
        precedence: head[6],
        media_uri,
        dvb_binary_locator,
        reserved_number_items: counts[0],
        number_items: number_items as usize,
        default_icon_flag: tail[0] == 1,
        icon_id: tail[1],
        descriptors,
    };
    Ok(LinkInfo { fields, items })
}

fn put_head(rt: &impl Print, fields: LinkFields) -> io::Result<()> {
    put(
        rt,
        &HEAD,
        &[
            fields.reserved_link_info_length,
            fields.link_type,
            fields.reserved_link_type,
            fields.how_related,
            fields.term_id,
            fields.group_id,
            fields.precedence,
        ],
    )
}

// What stands before the items of a link of the bytes `s`.
pub fn put_before_items(rt: &impl Print, s: &[u8], fields: LinkFields) -> io::Result<()> {
    let uri = fields.media_uri;
    let locator = fields.dvb_binary_locator;
    put_head(rt, fields)?;
    put_optional(rt, uri, |range| put_range(rt, s, range))?;
    say(rt, LOC)?;
    put_optional(rt, locator, |present| put_locator(rt, present))?;
    put_short(rt, ITEMS, [fields.reserved_number_items, 0, 0, 0])?;
    put_number(rt, fields.number_items)
}

// What stands behind them.
pub fn put_behind_items(rt: &impl Print, s: &[u8], fields: LinkFields) -> io::Result<()> {
    let descriptors = fields.descriptors;
    put_short(
        rt,
        TAIL,
        [fields.default_icon_flag as u16, fields.icon_id, 0, 0],
    )?;
    put_range(rt, s, descriptors)
}

// A link of the bytes `s`.
pub fn put_link(rt: &impl Print, s: &[u8], link: LinkInfo) -> io::Result<()> {
    let fields = link.fields;
    put_before_items(rt, s, fields)?;
    put_items(rt, s, link)?;
    put_behind_items(rt, s, fields)
}
