// Reading a related content section as a whole, by plain and by checked reading.
#![tactic(auto)]

ghost use Rattle.std.specs.Prelude.{◌≡◌, ◌≤◌, length, Ok};
ghost use Rattle.rct.specs.Syntax.{head_length};
ghost use Rattle.rct.specs.Reading.{rct_header_at, plain, checked};
ghost use Rattle.rct_walker.specs.Places.{loop_found};
ghost use Rattle.rct_reader.specs.Sections.{section_info, section_read};

use length_field::LengthField;
use link::Range;
use rct::RctHeader;
use rct_walker::RctLoop;
use wire::verdict::Refusal;

// A section that was read.
#[derive(Clone, Copy)]
pub struct RctSection {
    pub total: usize,
    pub header: RctHeader,
    pub number_of_links: usize,
    pub reserved_descriptor_loop_length: u16,
    pub descriptors: Range,
}

fn header_at(s: &[u8]) -> RctHeader
    requires { head_length ≤ length s.now }
    ensures { result ≡ rct_header_at s.now }
{
    let section = header_reader::read_header(s[1], s[3], s[4], s[5], s[6], s[7]);
    let year_offset = wire::be16(s[RctHeader::YEAR_AT], s[RctHeader::YEAR_AT + 1]);
    RctHeader {
        section,
        year_offset,
    }
}

// The record of a section that the plain reading accepts, by what its walk found.
fn section_at(s: &[u8], found: RctLoop) -> RctSection
    requires { loop_found (plain s.now) s.now ≡ Ok found }
    ensures { result ≡ section_info s.now }
{
    let loop_at = found.loop_at;
    let header = header_at(s);
    let field = LengthField::of_bytes(s[loop_at], s[loop_at + 1]);
    RctSection {
        total: found.total,
        header,
        number_of_links: found.count,
        reserved_descriptor_loop_length: field.beside as u16,
        descriptors: Range {
            start: (loop_at + LengthField::BYTES) as u32,
            length: field.length as u32,
        },
    }
}

// The plain reading: refusals 1 to 19.
pub fn read_section(s: &[u8]) -> Result<RctSection, Refusal>
    ensures { result ≡ section_read (plain s.now) s.now }
{
    let found = rct_loops::plain_loop(s)?;
    Ok(section_at(s, found))
}

// The checked reading: the plain one, then 20.
pub fn check_section(s: &[u8]) -> Result<RctSection, Refusal>
    ensures { result ≡ section_read (checked s.now) s.now }
{
    let found = rct_loops::checked_loop(s)?;
    Ok(section_at(s, found))
}
