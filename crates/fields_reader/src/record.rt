// The fields of a body that was checked. `base` is the body's place in the text that ranges are counted in.
ghost use Rattle.std.specs.Prelude.{[], ◌∷◌, ◌≡◌, ◌+◌, ◌^◌, ◌≤◌, ◌<◌, length};
ghost use Rattle.link.specs.Records.{locator_info, fields_at};
ghost use Rattle.fields_reader.specs.Stages.{head_at, Laid, uri_to, tail_at};

use field::Field;
use length_field::LengthField;
use link::{LinkFields, Range};
use locator::DvbBinaryLocator;

// The fields of a body's first four bytes.
#[derive(Drop)]
struct Head {
    link_type: u16,
    reserved_link_type: u16,
    how_related: u16,
    term_id: u16,
    group_id: u16,
    precedence: u16,
}

fn head_of(a: u8, b: u8, c: u8, d: u8) -> Head
    ensures { result ≡ head_at (a ∷ b ∷ c ∷ d ∷ []) }
{
    Head {
        link_type: Field::LINK_TYPE.low((a as u16) / 16),
        reserved_link_type: Field::LINK_TYPE_RESERVED.low((a as u16) / 4),
        how_related: Field::HOW_RELATED.low(wire::be16(a, b) / 16),
        term_id: Field::TERM_ID.low(wire::be16(b, c)),
        group_id: Field::GROUP_ID.low((d as u16) / 16),
        precedence: Field::PRECEDENCE.low(d as u16),
    }
}

// The URI's range, of where it ends: without a URI that is before any could start.
fn uri_to(base: u16, uri_end: usize) -> Option<Range>
    requires { uri_end < 2 ^ 16 }
    ensures { result ≡ uri_to base uri_end }
{
    if uri_end < LinkFields::URI_START {
        return None;
    }
    Some(Range {
        start: ((base as usize) + LinkFields::URI_START) as u32,
        length: (uri_end - LinkFields::URI_START) as u32,
    })
}

// What a body ends with.
#[derive(Drop)]
struct Tail {
    default_icon_flag: bool,
    icon_id: u16,
    descriptors: Range,
}

fn tail_at(s: &[u8], base: u16, p: usize) -> Tail
    requires { (p + 2 ≤ length s.now) × (p < 2 ^ 16) }
    ensures { result ≡ tail_at base s.now p }
{
    let field = LengthField::of_bytes(s[p], s[p + 1]);
    let descriptors = Range {
        start: ((base as usize) + (p + LengthField::BYTES)) as u32,
        length: field.length as u32,
    };
    Tail {
        default_icon_flag: field.beside / 8 == 1,
        icon_id: Field::ICON_ID.low(field.beside as u16),
        descriptors,
    }
}

// The fields of a body whose places were found and whose locator was read; `reserved` are the four bits before its length.
pub(crate) fn fields_at(
    s: &[u8],
    base: u16,
    reserved: u16,
    uri_end: usize,
    locator: Option<DvbBinaryLocator>,
    count_at: usize,
    tail: usize,
) -> LinkFields
    requires { Laid s.now uri_end count_at tail × (locator ≡ locator_info s.now) }
    ensures { result ≡ fields_at base reserved s.now }
{
    let head = head_of(s[0], s[1], s[2], s[3]);
    let count = s[count_at];
    let end = tail_at(s, base, tail);
    let descriptors = end.descriptors;
    LinkFields {
        reserved_link_info_length: reserved,
        link_type: head.link_type,
        reserved_link_type: head.reserved_link_type,
        how_related: head.how_related,
        term_id: head.term_id,
        group_id: head.group_id,
        precedence: head.precedence,
        media_uri: uri_to(base, uri_end),
        dvb_binary_locator: locator,
        reserved_number_items: Field::NUMBER_ITEMS_RESERVED.low((count as u16) / 64),
        number_items: Field::NUMBER_ITEMS.low(count as u16) as usize,
        default_icon_flag: end.default_icon_flag,
        icon_id: end.icon_id,
        descriptors,
    }
}
