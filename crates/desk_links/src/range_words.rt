// A range: in a call `@START+LENGTH` of the lent text, in an answer its bytes and where they start.
use console::Short;
use console::print::{put_hex, put_number, say};
use link::Range;
use script::read::{Numbers, read_short};
use script::scan::{Fault, Scan};
use spans::{Span, handed};
use std::io;

pub const RANGE: Short = *b"@#+#____________________";

const START: Short = *b"@_______________________";

pub fn range_of(n: Numbers) -> Range {
    Range {
        start: n[0] as u32,
        length: n[1] as u32,
    }
}

pub fn read_range(scan: &mut Scan<'_>) -> Result<Range, Fault> {
    let numbers = read_short(scan, RANGE)?;
    Ok(range_of(numbers))
}

// A range of the bytes `s`.
pub fn put_range(rt: &impl Print, s: &[u8], range: Range) -> io::Result<()> {
    let start = range.start as usize;
    let length = range.length as usize;
    put_span(rt, s, Span { start, length })
}

// The same where a record has it as a span.
pub fn put_span(rt: &impl Print, s: &[u8], span: Span) -> io::Result<()> {
    put_hex(rt, handed(s, span))?;
    say(rt, START)?;
    put_number(rt, span.start)
}
