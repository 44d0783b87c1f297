// Reading a link with its items from its body, and an item by its number or its place. A body, a slice of its own, is walked
// over and checked first; what is then read from it is known to be there.
#![tactic(auto)]

ghost use Rattle.std.specs.Prelude.{◌≡◌, ◌+◌, ◌-◌, ◌≤◌, length};
ghost use Rattle.link.specs.Syntax.{item_head};
ghost use Rattle.link.specs.Reading.{count_place, items_place, item_count, body_verdict};
ghost use Rattle.link.specs.Records.{filled, item_info, item_infos};
ghost use Rattle.link.specs.Answers.{link_read, item_read, last_place, told, item_from};
ghost use Rattle.wire.specs.Verdict.{Fine};

use field::Field;
use link::reading::ItemStep;
use link::{LangCode, LinkFields, LinkInfo, LinkItem, Range};
use wire::verdict::Refusal;

// The item at `p`, whose head is there. `base` is the place of the slice in the text that ranges are counted in.
fn item_at(s: &[u8], base: u16, p: usize) -> LinkItem
    requires { (p + item_head ≤ length s.now) × (base + (p + item_head) ≤ last_place) }
    ensures { result ≡ item_info base s.now p }
{
    let language_code = LangCode {
        first: s[p],
        second: s[p + 1],
        third: s[p + 2],
    };
    let promotional_text = Range {
        start: ((base as usize) + (p + LinkItem::HEAD)) as u32,
        length: s[p + LinkItem::LANGUAGE] as u32,
    };
    LinkItem {
        language_code,
        promotional_text,
    }
}

// The items of a body that was checked, `n` from `items_at` on, which is counted from `base`; those past them are empty.
fn items_of(s: &[u8], base: u16, n: usize, items_at: u32) -> [LinkItem; LinkInfo::MOST_ITEMS]
    requires { (body_verdict s.now ≡ Fine) × (n ≡ item_count s.now) × (items_at ≡ base + items_place s.now) }
    ensures { result ≡ filled (item_infos base n s.now (items_at - base)) }
{
    let mut p = (items_at as usize) - (base as usize);
    let none = LinkItem::none();
    let mut items = [none; LinkInfo::MOST_ITEMS];
    for i in 0..n {
        let item = item_at(s, base, p);
        let text = item.promotional_text;
        items[i] = item;
        p = p + LinkItem::HEAD + (text.length as usize);
    }
    items
}

// The record of a link, all items filled in.
pub fn read_link(s: &[u8], base: u16, reserved: u16) -> Result<LinkInfo, Refusal>
    ensures { result ≡ link_read base reserved s.now }
{
    let read = fields_reader::read_fields(s, base, reserved)?;
    Ok(LinkInfo {
        fields: read.fields,
        items: items_of(s, base, read.fields.number_items, read.items_at),
    })
}

// An item of a body that was checked, by number: 21 (number, count) past the last. The items before it were checked too, so
// that none of them is refused here.
fn item_numbered(s: &[u8], base: u16, count_at: usize, number: usize) -> Result<LinkItem, Refusal>
    requires { (body_verdict s.now ≡ Fine) × (count_at ≡ count_place s.now) }
    ensures { result ≡ item_read base s.now number }
{
    let n = Field::NUMBER_ITEMS.low(s[count_at] as u16) as usize;
    if n <= number {
        return Err(Refusal {
            number: Refusal::NO_SUCH_NUMBER,
            first: number,
            second: n,
        });
    }
    let p = item_walker::past_items(s, (count_at + LinkFields::COUNT) as u32, number)?;
    Ok(item_at(s, base, p))
}

// Item by number: the body's refusals, then 21 (number, count), else the item.
pub fn read_item(s: &[u8], base: u16, number: usize) -> Result<LinkItem, Refusal>
    ensures { result ≡ item_read base s.now number }
{
    let places = link_walker::body_places(s)?;
    item_numbered(s, base, places.count_at, number)
}

// What ranges can tell of a slice: all of it, unless it is longer than their 32 bits.
fn told(s: &[u8]) -> &[u8]
    ensures { result.now ≡ told s.now }
{
    if s.len() <= Range::LAST {
        return s;
    }
    &s[..Range::LAST]
}

// Item by place, for a walk from one to the next: the item at `at` of a slice, its range counted from the slice's first
// byte, and the place behind it, or 12 or 13 against the slice's end.
pub fn item_from(s: &[u8], at: u32) -> Result<ItemStep, Refusal>
    ensures { result ≡ item_from s.now at }
{
    let t = told(s);
    let p = at as usize;
    let next = item_walker::past_item(t, at)?;
    Ok(ItemStep {
        item: item_at(t, 0, p),
        next: next as u32,
    })
}
