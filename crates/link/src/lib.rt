// A link of the related content section (ETSI TS 102 323, 10.4.3, Table 110): its record, how long its parts are, which
// link types have what, and what a reading of its body answers.
#![tactic(auto)]

ghost use Rattle.std.specs.Prelude.{◌≡◌};
ghost use Rattle.link.specs.Syntax.{uri_due, locator_due};
ghost use Rattle.link.specs.Records.{no_item, no_fields, no_link, ones_fields};

use field::Field;
use locator::DvbBinaryLocator;

pub mod reading;

// Bytes of one lent text: where they start, and how many there are.
#[repr(C)]
#[derive(Clone, Copy)]
pub struct Range {
    pub start: u32,
    pub length: u32,
}

// The three bytes of an ISO 639-2 language code.
#[repr(C)]
#[derive(Clone, Copy)]
pub struct LangCode {
    pub first: u8,
    pub second: u8,
    pub third: u8,
}

#[repr(C)]
#[derive(Clone, Copy)]
pub struct LinkItem {
    pub language_code: LangCode,
    pub promotional_text: Range,
}

// The fields of a link's record, all but the items themselves. The number of the items stands last, so that the items follow
// without a gap: a record that is made of its fields and its items is then not made twice.
#[derive(Clone, Copy)]
pub struct LinkFields {
    pub reserved_link_info_length: u16,
    pub link_type: u16,
    pub reserved_link_type: u16,
    pub how_related: u16,
    pub term_id: u16,
    pub group_id: u16,
    pub precedence: u16,
    pub media_uri: Option<Range>,
    pub dvb_binary_locator: Option<DvbBinaryLocator>,
    pub reserved_number_items: u16,
    pub default_icon_flag: bool,
    pub icon_id: u16,
    pub descriptors: Range,
    pub number_items: usize,
}

// The record of a link: `number_items` of the items count, the others mean nothing.
#[derive(Clone, Copy)]
pub struct LinkInfo {
    pub fields: LinkFields,
    pub items: [LinkItem; LinkInfo::MOST_ITEMS],
}

impl Range {
    // The last place that a range's 32 bits can tell.
    pub const LAST: usize = 0xFFFF_FFFF;
}

impl LinkItem {
    // The bytes of an item's language, and of its head: the language and the length of its text.
    pub const LANGUAGE: usize = 3;

    pub const HEAD: usize = LinkItem::LANGUAGE + 1;

    // An empty text in no language: what stands past the number of items.
    pub fn none() -> LinkItem
        ensures { result ≡ no_item }
    {
        LinkItem {
            language_code: LangCode {
                first: 0,
                second: 0,
                third: 0,
            },
            promotional_text: Range {
                start: 0,
                length: 0,
            },
        }
    }
}

impl LinkFields {
    // The bytes of link type to precedence, of the URI's length, and of the items' number.
    pub const HEAD: usize = 4;

    pub const URI_HEAD: usize = 1;

    pub const COUNT: usize = 1;

    // Where a URI starts, behind its length.
    pub const URI_START: usize = LinkFields::HEAD + LinkFields::URI_HEAD;

    // The fields of nothing: all numbers 0, neither URI nor locator.
    pub fn none() -> LinkFields
        ensures { result ≡ no_fields }
    {
        LinkFields {
            reserved_link_info_length: 0,
            link_type: 0,
            reserved_link_type: 0,
            how_related: 0,
            term_id: 0,
            group_id: 0,
            precedence: 0,
            media_uri: None,
            dvb_binary_locator: None,
            reserved_number_items: 0,
            number_items: 0,
            default_icon_flag: false,
            icon_id: 0,
            descriptors: Range {
                start: 0,
                length: 0,
            },
        }
    }

    // The fields with their reserved bits set to ones, as the standard has them.
    pub fn with_reserved_ones(mut self) -> LinkFields
        ensures { result ≡ ones_fields self }
    {
        self.reserved_link_info_length = Field::LINK_LENGTH_RESERVED.widest as u16;
        self.reserved_link_type = Field::LINK_TYPE_RESERVED.widest as u16;
        self.reserved_number_items = Field::NUMBER_ITEMS_RESERVED.widest as u16;
        self
    }
}

impl LinkInfo {
    // How many items a record holds.
    pub const MOST_ITEMS: usize = Field::NUMBER_ITEMS.widest;

    // The record of nothing: it stands beside a refusal.
    pub fn none() -> LinkInfo
        ensures { result ≡ no_link }
    {
        let none = LinkItem::none();
        let items = [none; LinkInfo::MOST_ITEMS];
        let fields = LinkFields::none();
        LinkInfo { fields, items }
    }
}

// Whether a link of this type has a URI.
pub fn has_uri(link_type: u16) -> bool
    ensures { result ≡ uri_due link_type }
{
    if link_type == 0 { true } else { link_type == 2 }
}

// Whether a link of this type has a locator.
pub fn has_locator(link_type: u16) -> bool
    ensures { result ≡ locator_due link_type }
{
    if link_type == 1 { true } else { link_type == 2 }
}
