// The parts of a section that are handed back: each is that part of the lent slice itself, or nothing where there is none.
// Why there is none, the numbered calls answer.
#![tactic(auto)]

ghost use Rattle.std.specs.Prelude.{◌≡◌, ◌+◌};
ghost use Rattle.wire.specs.Lists.{within};
ghost use Rattle.spans.specs.Spans.{span_of};
ghost use Rattle.link.specs.Parts.{uri_span, text_span, descriptor_span};
ghost use Rattle.rct_parts.specs.Parts.{body_span_of, loop_span_of, body_span, body_part, loop_span};

use rct_bodies::NumberedBody;
use rct_reader::RctSection;
use spans::{Span, handed};
use wire::verdict::Refusal;

// What is handed back where there is no such part: nothing, at the section's start.
pub const NOTHING: Span = Span {
    start: 0,
    length: 0,
};

fn body_span_of(found: Result<NumberedBody, Refusal>) -> Span
    ensures { result ≡ body_span_of found }
{
    match found {
        Ok(NumberedBody { reserved: _, body }) => body,
        Err(_) => NOTHING,
    }
}

fn loop_span_of(found: Result<RctSection, Refusal>) -> Span
    ensures { result ≡ loop_span_of found }
{
    match found {
        Ok(read) => Span {
            start: read.descriptors.start as usize,
            length: read.descriptors.length as usize,
        },
        Err(_) => NOTHING,
    }
}

// The body of a link by number.
pub fn link_body(s: &[u8], number: usize) -> &[u8]
    ensures result_value { result.now ≡ body_part s.now number }
    ensures ref_ptr_value { result.ref_ptr ≡ within s.entry.ref_ptr (body_span s.now number).start }
{
    handed(s, body_span_of(rct_bodies::numbered_body(s, number)))
}

// The URI of a link by number.
pub fn media_uri(s: &[u8], number: usize) -> &[u8]
    ensures result_value { result.now ≡ span_of (body_part s.now number) (uri_span (body_part s.now number)) }
    ensures ref_ptr_value { result.ref_ptr ≡ within s.entry.ref_ptr ((uri_span (body_part s.now number)).start + (body_span s.now number).start) }
{
    link_parts::media_uri(link_body(s, number))
}

// The promotional text of an item by number, of a link by number.
pub fn promotional_text(s: &[u8], number: usize, item: usize) -> &[u8]
    ensures result_value { result.now ≡ span_of (body_part s.now number) (text_span (body_part s.now number) item) }
    ensures ref_ptr_value { result.ref_ptr ≡ within s.entry.ref_ptr ((text_span (body_part s.now number) item).start + (body_span s.now number).start) }
{
    link_parts::promotional_text(link_body(s, number), item)
}

// The descriptors of a link by number.
pub fn link_descriptors(s: &[u8], number: usize) -> &[u8]
    ensures result_value { result.now ≡ span_of (body_part s.now number) (descriptor_span (body_part s.now number)) }
    ensures ref_ptr_value { result.ref_ptr ≡ within s.entry.ref_ptr ((descriptor_span (body_part s.now number)).start + (body_span s.now number).start) }
{
    link_parts::descriptors(link_body(s, number))
}

// The descriptors of the section's own loop.
pub fn loop_descriptors(s: &[u8]) -> &[u8]
    ensures result_value { result.now ≡ span_of s.now (loop_span s.now) }
    ensures ref_ptr_value { result.ref_ptr ≡ within s.entry.ref_ptr (loop_span s.now).start }
{
    handed(s, loop_span_of(rct_reader::read_section(s)))
}
