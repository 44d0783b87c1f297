// The parts of a link's body that are handed back: each is that part of the lent slice itself, or nothing where there is
// none. Why there is none, the calls of link_reader answer.
#![tactic(auto)]

ghost use Rattle.std.specs.Prelude.{◌≡◌};
ghost use Rattle.wire.specs.Lists.{within};
ghost use Rattle.spans.specs.Spans.{span_of};
ghost use Rattle.link.specs.Parts.{uri_span, text_span, descriptor_span};

use length_field::LengthField;
use link::LinkFields;
use link_walker::BodyPlaces;
use spans::Span;

// Where a part is that is not there: no bytes, at the body's start.
const NOWHERE: Span = Span {
    start: 0,
    length: 0,
};

// A URI is there exactly if it ends where one can start, or behind that.
fn uri_span(s: &[u8]) -> Span
    ensures { result ≡ uri_span s.now }
{
    let places = link_walker::body_places(s);
    match places {
        Ok(
            BodyPlaces {
                uri_end,
                count_at: _,
                tail: _,
            },
        ) => {
            if uri_end < LinkFields::URI_START {
                return NOWHERE;
            }
            Span {
                start: LinkFields::URI_START,
                length: uri_end - LinkFields::URI_START,
            }
        }
        Err(_) => NOWHERE,
    }
}

fn text_span(s: &[u8], number: usize) -> Span
    ensures { result ≡ text_span s.now number }
{
    let read = link_reader::read_item(s, 0, number);
    match read {
        Ok(item) => {
            let text = item.promotional_text;
            Span {
                start: text.start as usize,
                length: text.length as usize,
            }
        }
        Err(_) => NOWHERE,
    }
}

// The descriptors are all that the body has behind their length.
fn descriptor_span(s: &[u8]) -> Span
    ensures { result ≡ descriptor_span s.now }
{
    let places = link_walker::body_places(s);
    match places {
        Ok(
            BodyPlaces {
                uri_end: _,
                count_at: _,
                tail,
            },
        ) => {
            let start = tail + LengthField::BYTES;
            Span {
                start,
                length: s.len() - start,
            }
        }
        Err(_) => NOWHERE,
    }
}

// The URI.
pub fn media_uri(s: &[u8]) -> &[u8]
    ensures result_value { result.now ≡ span_of s.now (uri_span s.now) }
    ensures ref_ptr_value { result.ref_ptr ≡ within s.entry.ref_ptr (uri_span s.now).start }
{
    spans::handed(s, uri_span(s))
}

// The promotional text of an item by number.
pub fn promotional_text(s: &[u8], number: usize) -> &[u8]
    ensures result_value { result.now ≡ span_of s.now (text_span s.now number) }
    ensures ref_ptr_value { result.ref_ptr ≡ within s.entry.ref_ptr (text_span s.now number).start }
{
    spans::handed(s, text_span(s, number))
}

// The link's descriptors.
pub fn descriptors(s: &[u8]) -> &[u8]
    ensures result_value { result.now ≡ span_of s.now (descriptor_span s.now) }
    ensures ref_ptr_value { result.ref_ptr ≡ within s.entry.ref_ptr (descriptor_span s.now).start }
{
    spans::handed(s, descriptor_span(s))
}
