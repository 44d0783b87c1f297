// What the lines of both listings have in common. Names are printed as text and not by forms, in which `_` is nothing.
use console::print::{end_line, put_hex, put_number, put_refusal, put_text};
use section_header::SectionHeader;
use std::io;
use wire::verdict::Refusal;

// A number behind its name.
pub fn put_field(rt: &impl Print, name: &[u8], number: usize) -> io::Result<()> {
    put_text(rt, name)?;
    put_number(rt, number)
}

// What every section's line begins with; the word before it is the table's own.
pub fn put_header(rt: &impl Print, word: &[u8], header: SectionHeader) -> io::Result<()> {
    put_field(rt, word, header.table_id_extension as usize)?;
    put_field(rt, b" version ", header.version_number as usize)?;
    put_field(rt, b" current ", header.current_next_indicator as usize)?;
    put_field(rt, b" number ", wire::wide(header.section_number))?;
    put_field(rt, b" of ", wire::wide(header.last_section_number))
}

// How many bytes of descriptors there are.
pub fn put_descriptor_count(rt: &impl Print, count: usize) -> io::Result<()> {
    put_field(rt, b" descriptors ", count)
}

// Text behind its name, with which a line ends: an empty one leaves the space before it.
pub fn put_last(rt: &impl Print, name: &[u8], text: &[u8]) -> io::Result<()> {
    put_text(rt, name)?;
    put_text(rt, text)?;
    end_line(rt)
}

// A line below another, if there are any descriptors: these, to base 16.
pub fn put_descriptors(rt: &impl Print, descriptors: &[u8]) -> io::Result<()> {
    if descriptors.len() > 0 {
        put_text(rt, b"  descriptors ")?;
        put_hex(rt, descriptors)?;
        end_line(rt)?;
    }
    Ok(())
}

// A refusal, which stands alone.
pub fn put_refused(rt: &impl Print, refusal: Refusal) -> io::Result<()> {
    put_refusal(rt, refusal)?;
    end_line(rt)
}
