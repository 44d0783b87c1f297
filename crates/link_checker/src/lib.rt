// What is checked of a link's record before it is written, and how long its body is. Fields that are absent are not
// checked. The array of items is walked once, and handed on to nobody.
#![tactic(auto)]

ghost use Rattle.std.specs.Prelude.{◌≡◌, ◌+◌, ◌*◌, ◌≤◌};
ghost use Rattle.field.specs.Fields.{number_items, check_field};
ghost use Rattle.link.specs.Syntax.{item_head};
ghost use Rattle.locator.specs.Writing.{longest_written};
ghost use Rattle.link_draft.specs.Checks.{check_presence, check_head, link_checked};
ghost use Rattle.link_checker.specs.Stages.{no_ranges, joined, range_checked, uri_checked, most_range, locator_checked, fields_checked, all_checked};

use field::Field;
use length_field::LengthField;
use link::{LinkFields, LinkInfo, LinkItem, Range};
use link_draft::{LinkChecked, check_range, held, locator_here, uri_here};
use locator::DvbBinaryLocator;
use wire::verdict::{Refusal, first_of};

// Of some parts of the body that are ranges of the text: the first length that is too wide for its field, the first range
// past the text, and how many bytes they have with their heads.
#[derive(Clone, Copy)]
struct RangesChecked {
    narrow: Result<(), Refusal>,
    within: Result<(), Refusal>,
    length: usize,
}

// Of the locator: the first field that is too wide, whether the windows are as the rule has them, and how many bytes it has.
#[derive(Clone, Copy)]
struct LocatorChecked {
    narrow: Result<(), Refusal>,
    rule: Result<(), Refusal>,
    length: usize,
}

// Refusals 23, 22, 24 and 25, in this order, of a record whose ranges are of `text`; and the length of its body.
pub fn check_link(text: &[u8], link: LinkInfo) -> LinkChecked
    ensures { result ≡ link_checked text.now link }
{
    let items = link.items;
    let fields = link.fields;
    let have = text.len();
    let n = held(fields.number_items);
    let mut texts = RangesChecked::none();
    for item in &items[..n] {
        let found = check_ranged(
            have,
            LinkItem::HEAD,
            Field::TEXT_LENGTH,
            item.promotional_text,
        );
        texts = texts.joined(found);
    }
    check_all(have, fields, texts)
}

// All besides the items' texts, of which `texts` tells.
fn check_all(have: usize, fields: LinkFields, texts: RangesChecked) -> LinkChecked
    requires { texts.length ≤ number_items.widest * most_range }
    ensures { result ≡ all_checked have fields texts }
{
    let media_uri = fields.media_uri;
    let link_locator = fields.dvb_binary_locator;
    let uri = check_uri(have, media_uri);
    let locator = check_locator(link_locator);
    let descriptors = check_ranged(
        have,
        LengthField::BYTES,
        Field::DESCRIPTOR_LENGTH,
        fields.descriptors,
    );
    let ranges = uri.joined(texts.joined(descriptors));
    let presence = check_presence(fields);
    let narrow = check_fields(fields, uri, locator, texts, descriptors);
    let rule = locator.rule;
    let within = ranges.within;
    LinkChecked {
        verdict: first_of(presence, first_of(narrow, first_of(rule, within))),
        length: LinkFields::HEAD + locator.length + LinkFields::COUNT + ranges.length,
    }
}

// 23: what is there agrees with the link type, which may be wider than its field.
fn check_presence(fields: LinkFields) -> Result<(), Refusal>
    ensures { result ≡ check_presence fields }
{
    let uri = fields.media_uri;
    let locator = fields.dvb_binary_locator;
    let link_type = fields.link_type;
    let against = Err(Refusal {
        number: Refusal::AGAINST_TYPE,
        first: link_type as usize,
        second: 0,
    });
    if uri_here(uri) != link::has_uri(link_type) {
        return against;
    }
    if locator_here(locator) != link::has_locator(link_type) {
        return against;
    }
    Ok(())
}

// 22 of the lowest rank that is too wide, with what was found of the ranks that are looked at elsewhere.
fn check_fields(
    fields: LinkFields,
    uri: RangesChecked,
    locator: LocatorChecked,
    texts: RangesChecked,
    descriptors: RangesChecked,
) -> Result<(), Refusal>
    ensures { result ≡ fields_checked fields uri.narrow locator.narrow texts.narrow descriptors.narrow }
{
    let rank7 = uri.narrow;
    let rank8 = locator.narrow;
    let rank16 = texts.narrow;
    let rank17 = descriptors.narrow;
    let rank1 = check_head(fields);
    let rank14 = Field::NUMBER_ITEMS.check(fields.number_items);
    let rank15 = narrow(Field::NUMBER_ITEMS_RESERVED, fields.reserved_number_items);
    let rank18 = narrow(Field::ICON_ID, fields.icon_id);
    let rank19 = narrow(
        Field::LINK_LENGTH_RESERVED,
        fields.reserved_link_info_length,
    );
    let end = first_of(rank17, first_of(rank18, rank19));
    let items = first_of(first_of(rank14, rank15), first_of(rank16, end));
    first_of(rank1, first_of(rank7, first_of(rank8, items)))
}

// 22 of ranks 1 to 6.
fn check_head(fields: LinkFields) -> Result<(), Refusal>
    ensures { result ≡ check_head fields }
{
    let related = narrow(Field::HOW_RELATED, fields.how_related);
    let term = narrow(Field::TERM_ID, fields.term_id);
    let link_type = narrow(Field::LINK_TYPE, fields.link_type);
    let reserved = narrow(Field::LINK_TYPE_RESERVED, fields.reserved_link_type);
    let group = narrow(Field::GROUP_ID, fields.group_id);
    let precedence = narrow(Field::PRECEDENCE, fields.precedence);
    let last = first_of(reserved, first_of(group, precedence));
    first_of(related, first_of(term, first_of(link_type, last)))
}

// 22 of a field that is carried in 16 bits.
fn narrow(field: Field, number: u16) -> Result<(), Refusal>
    ensures { result ≡ check_field field number }
{
    field.check(number as usize)
}

fn check_uri(have: usize, uri: Option<Range>) -> RangesChecked
    ensures { (result ≡ uri_checked have uri) × (result.length ≤ most_range) }
{
    match uri {
        None => RangesChecked::none(),
        Some(range) => check_ranged(have, LinkFields::URI_HEAD, Field::URI_LENGTH, range),
    }
}

fn check_locator(locator: Option<DvbBinaryLocator>) -> LocatorChecked
    ensures { (result ≡ locator_checked locator) × (result.length ≤ longest_written) }
{
    match locator {
        None => LocatorChecked {
            narrow: Ok(()),
            rule: Ok(()),
            length: 0,
        },
        Some(l) => LocatorChecked {
            narrow: locator_checker::check_fields(l),
            rule: locator_checker::check_windows(l),
            length: locator_length::length_of(l),
        },
    }
}

// One range, whose length the field holds, behind `head` bytes of its own.
fn check_ranged(have: usize, head: usize, field: Field, range: Range) -> RangesChecked
    requires { head ≤ item_head }
    ensures { (result ≡ range_checked have head field range) × (result.length ≤ most_range) }
{
    let length = range.length as usize;
    RangesChecked {
        narrow: field.check(length),
        within: check_range(have, range),
        length: head + length,
    }
}

impl RangesChecked {
    fn none() -> RangesChecked
        ensures { result ≡ no_ranges }
    {
        RangesChecked {
            narrow: Ok(()),
            within: Ok(()),
            length: 0,
        }
    }

    // These, then those: the items' texts, the URI and the descriptors at most.
    fn joined(self, behind: RangesChecked) -> RangesChecked
        requires { self.length + behind.length ≤ (number_items.widest + 2) * most_range }
        ensures { result ≡ joined self behind }
    {
        let narrow = self.narrow;
        let within = self.within;
        let narrow_behind = behind.narrow;
        let within_behind = behind.within;
        RangesChecked {
            narrow: first_of(narrow, narrow_behind),
            within: first_of(within, within_behind),
            length: self.length + behind.length,
        }
    }
}
