// Making a section with no links.
#![tactic(auto)]

ghost use Rattle.std.specs.Prelude.{◌≡◌, ◌+◌, ◌%◌, ◌≤◌, length};
ghost use Rattle.length_field.specs.Lengths.{longest, block_bytes};
ghost use Rattle.byte_stores.specs.Stores.{Wrote};
ghost use Rattle.rct.specs.Syntax.{head_length, head_bytes};
ghost use Rattle.rct_edit.specs.Answers.{answer};
ghost use Rattle.rct_edit.specs.Making.{check_loop, check_making, narrowed_header, LoopNarrow, loop_of};
ghost use Rattle.rct_edit.specs.Calls.{making};

use field::Field;
use length_field::LengthField;
use link::Range;
use link_draft::check_range;
use rct::RctHeader;
use rct_edit::room::check_room;
use wire::verdict::{Refusal, first_of};

// Makes a section with no links from the first byte on: the header, the loop's descriptors, which are a range of
// `text`, and the CRC.
pub fn make(
    b: &mut [u8],
    header: RctHeader,
    reserved_descriptor_loop_length: u16,
    text: &[u8],
    descriptors: Range,
) -> Result<usize, Refusal>
    ensures value { result ≡ answer (making b.old header reserved_descriptor_loop_length text.now descriptors) }
    ensures b_after { b.new ≡ (making b.old header reserved_descriptor_loop_length text.now descriptors).buffer }
{
    check_making(
        header,
        reserved_descriptor_loop_length,
        text.len(),
        descriptors,
    )?;
    let length = RctHeader::SHORTEST as usize + descriptors.length as usize;
    check_room(b.len(), length)?;
    let head = head_bytes(header, length);
    byte_stores::put_at(b, 0, &head);
    let end = put_loop(b, reserved_descriptor_loop_length, text, descriptors);
    Ok(frame_ending::seal(b, end))
}

// 22 of ranks 23 and 24.
fn check_loop(reserved: u16, range: Range) -> Result<(), Refusal>
    ensures { result ≡ check_loop reserved range }
{
    first_of(
        Field::LOOP_LENGTH.check(range.length as usize),
        Field::LOOP_LENGTH_RESERVED.check(reserved as usize),
    )
}

// 38 and 22 of the header, 22 of the loop, and 25.
fn check_making(header: RctHeader, reserved: u16, have: usize, range: Range) -> Result<(), Refusal>
    ensures { result ≡ check_making header reserved have range }
{
    let section = header.section;
    let first = header_checker::check_header(section);
    let later = first_of(check_loop(reserved, range), check_range(have, range));
    first_of(first, later)
}

// The bytes before the links, of which there are none.
fn head_bytes(header: RctHeader, section_length: usize) -> [u8; RctHeader::HEAD]
    ensures { result ≡ head_bytes (narrowed_header header) (section_length % (longest + 1)) 0 }
{
    let section = header.section;
    let front = header_writer::header_bytes(section, section_length);
    let year = wire::to_be16(header.year_offset);
    [
        RctHeader::TABLE_ID,
        front[0],
        front[1],
        front[2],
        front[3],
        front[4],
        front[5],
        front[6],
        year[0],
        year[1],
        0,
    ]
}

// The descriptor loop, for which there is room behind the header. The answer is the place behind it.
fn put_loop(b: &mut [u8], reserved: u16, text: &[u8], range: Range) -> usize
    requires { LoopNarrow reserved text.now range × (head_length + 2 + range.length ≤ length b.old) }
    ensures { Wrote b.old head_length (block_bytes (loop_of reserved text.now range)) b.new result }
{
    let start = range.start as usize;
    let length = range.length as usize;
    let end = start + length;
    let field = LengthField {
        beside: reserved as u8,
        length,
    };
    let bytes = field.to_bytes();
    let at = RctHeader::HEAD + LengthField::BYTES;
    byte_stores::put_at(b, RctHeader::HEAD, &bytes);
    byte_stores::put_at(b, at, &text[start..end]);
    at + length
}
