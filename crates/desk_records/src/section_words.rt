// A related content section up to its links.
use crate::header_words::{put_header, read_header};
use console::Short;
use console::print::{put_number, put_short, say};
use desk_links::range_words::{put_range, read_range};
use link::Range;
use rct::RctHeader;
use script::form::Part;
use script::read::read_short;
use script::scan::{Fault, Scan};
use std::io;

const NAME: Short = *b" rct____________________";

const SERVICE: Short = *b" service=#______________";

// What stands between the header that every table has and the loop's descriptors.
const FIELDS: Short = *b" year=# loopres=# loop=_";

const LINKS: Short = *b" links=_________________";

// A section to be made: its header, the bits beside the loop's length, and the loop's descriptors in the lent text.
#[derive(Drop)]
pub struct NewSection {
    pub header: RctHeader,
    pub reserved: u16,
    pub descriptors: Range,
}

// A section to be made has no links yet.
pub fn read_section(scan: &mut Scan<'_>) -> Result<NewSection, Fault> {
    read_short(scan, NAME)?;
    let section = read_header(scan, SERVICE)?;
    let fields = read_short(scan, FIELDS)?;
    let descriptors = read_range(scan)?;
    read_short(scan, LINKS)?;
    scan.number(Part::number(0))?;
    let header = RctHeader {
        section,
        year_offset: fields[0],
    };
    Ok(NewSection {
        header,
        reserved: fields[1],
        descriptors,
    })
}

// A section of the bytes `s`, its header, loop and number of links.
pub fn put_section(
    rt: &impl Print,
    s: &[u8],
    total: usize,
    header: RctHeader,
    reserved: u16,
    descriptors: Range,
    links: usize,
) -> io::Result<()> {
    let section = header.section;
    say(rt, NAME)?;
    put_header(rt, total, section, SERVICE)?;
    put_short(rt, FIELDS, [header.year_offset, reserved, 0, 0])?;
    put_range(rt, s, descriptors)?;
    say(rt, LINKS)?;
    put_number(rt, links)
}
