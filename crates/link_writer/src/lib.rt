// Writing a link's body into a lent buffer, part by part. Nothing is checked: of a number that is too wide for its field the
// lowest bits are written, of a range that goes past the text nothing, and a part for which there is no room is left out
// with all behind it.
#![tactic(auto)]

ghost use Rattle.std.specs.Prelude.{◌≡◌, [], ◌∷◌, min, ◌+◌, ◌*◌, ◌≤◌};
ghost use Rattle.field.specs.Fields.{number_items, number_items_reserved, low};
ghost use Rattle.link_draft.specs.Writing.{head_bytes, headed, uri_parts, locator_parts, front_parts, item_parts, tail_parts, link_put};
ghost use Rattle.link_writer.specs.Stages.{Puts};

use field::Field;
use length_field::LengthField;
use link::{LinkFields, LinkInfo, LinkItem, Range};
use link_draft::held;
use locator::DvbBinaryLocator;
use spans::Span;

// Writes the body of a record whose ranges are of `text` into `b` from `at` on. It is the syntax's bytes if the record
// passed its checks and there is room for it.
pub fn put_link(b: &mut [u8], at: usize, text: &[u8], link: LinkInfo)
    ensures { b.new ≡ link_put b.old at text.now link }
{
    let items = link.items;
    let fields = link.fields;
    let n = held(fields.number_items);
    let mut p = put_front(b, at, text, fields);
    for item in &items[..n] {
        p = put_item(b, p, text, *item);
    }
    put_tail(b, p, text, fields);
}

// Each of these writes its parts from a place on, and answers the place behind them.
fn put_front(b: &mut [u8], at: usize, text: &[u8], fields: LinkFields) -> usize
    ensures { Puts b.old at (front_parts text.now fields (min fields.number_items number_items.widest)) b.new result }
{
    let uri = fields.media_uri;
    let locator = fields.dvb_binary_locator;
    let head = head_bytes(fields);
    let count = [count_byte(fields.reserved_number_items, fields.number_items)];
    let uri_at = put_next(b, at, &head);
    let locator_at = put_uri(b, uri_at, text, uri);
    let count_at = put_locator(b, locator_at, locator);
    put_next(b, count_at, &count)
}

fn put_uri(b: &mut [u8], at: usize, text: &[u8], uri: Option<Range>) -> usize
    ensures { Puts b.old at (uri_parts text.now uri) b.new result }
{
    match uri {
        None => at,
        Some(range) => {
            let head = [length_byte(Field::URI_LENGTH, range)];
            put_headed(b, at, &head, text, range)
        }
    }
}

fn put_locator(b: &mut [u8], at: usize, locator: Option<DvbBinaryLocator>) -> usize
    ensures { Puts b.old at (locator_parts locator) b.new result }
{
    match locator {
        None => at,
        Some(l) => {
            let written = locator_writer::locator_bytes(l);
            let bytes = written.bytes;
            let length = written.length;
            put_next(b, at, &bytes[..length])
        }
    }
}

fn put_item(b: &mut [u8], at: usize, text: &[u8], item: LinkItem) -> usize
    ensures { Puts b.old at (item_parts text.now item) b.new result }
{
    let language = item.language_code;
    let range = item.promotional_text;
    let length = length_byte(Field::TEXT_LENGTH, range);
    let head = [language.first, language.second, language.third, length];
    put_headed(b, at, &head, text, range)
}

// The default icon flag, the icon and the descriptors, with which the body ends.
fn put_tail(b: &mut [u8], at: usize, text: &[u8], fields: LinkFields) -> usize
    ensures { Puts b.old at (tail_parts text.now fields) b.new result }
{
    let range = fields.descriptors;
    let icon = Field::ICON_ID.low(fields.icon_id) as u8;
    let field = LengthField {
        beside: wire::flag(fields.default_icon_flag) * 8 + icon,
        length: range.length as usize,
    };
    let head = field.to_bytes();
    put_headed(b, at, &head, text, range)
}

// Some bytes, and behind them those of a range.
fn put_headed(b: &mut [u8], at: usize, head: &[u8], text: &[u8], range: Range) -> usize
    ensures { Puts b.old at (headed text.now head.now range) b.new result }
{
    let start = range.start as usize;
    let length = range.length as usize;
    let part = spans::handed(text, Span { start, length });
    let range_at = put_next(b, at, head);
    put_next(b, range_at, part)
}

// One part. Where there is no room for it the answer is a place past the end, from where nothing more is written.
fn put_next(b: &mut [u8], at: usize, part: &[u8]) -> usize
    ensures { Puts b.old at (part.now ∷ []) b.new result }
{
    if byte_stores::put_at(b, at, part) {
        at + part.len()
    } else {
        b.len() + 1
    }
}

// Link type to precedence, each by its lowest bits.
fn head_bytes(fields: LinkFields) -> [u8; 4]
    ensures { result ≡ head_bytes fields }
{
    let link_type = Field::LINK_TYPE.low(fields.link_type);
    let reserved = Field::LINK_TYPE_RESERVED.low(fields.reserved_link_type);
    let related = Field::HOW_RELATED.low(fields.how_related);
    let term = Field::TERM_ID.low(fields.term_id);
    let group = Field::GROUP_ID.low(fields.group_id);
    let precedence = Field::PRECEDENCE.low(fields.precedence);
    [
        (link_type * 16 + reserved * 4 + related / 16) as u8,
        (related % 16 * 16 + term / 256) as u8,
        (term % 256) as u8,
        (group * 16 + precedence) as u8,
    ]
}

// The byte with the length of a range, by its lowest bits.
fn length_byte(field: Field, range: Range) -> u8
    requires { field.widest ≤ 255 }
    ensures { result ≡ low field range.length }
{
    (range.length as usize % (field.widest + 1)) as u8
}

// The byte with the number of items that are written.
fn count_byte(reserved: u16, count: usize) -> u8
    ensures { result ≡ low number_items_reserved reserved * 64 + min count number_items.widest }
{
    (Field::NUMBER_ITEMS_RESERVED.low(reserved) as usize * 64 + held(count)) as u8
}
