// A link's record as numbers alone, for a caller that has no enums; what may be absent is told as in flat_locator.
#![tactic(auto)]

ghost use Rattle.std.specs.Prelude.{◌≡◌};
ghost use Rattle.flat_link.specs.Links.{uri_range, uri_of, no_locator, place_flat, place_of, fields_flat, fields_of, link_flat, info_of};

use flat_locator::{FlatLocator, is_set};
use link::{LinkFields, LinkInfo, LinkItem, Range};
use locator::{DvbBinaryLocator, DvbLocatorIdentifier, DvbLocatorService};

// The fields of a link's record, all but the items themselves.
#[repr(C)]
#[derive(Clone, Copy)]
pub struct FlatFields {
    pub reserved_link_info_length: u16,
    pub link_type: u16,
    pub reserved_link_type: u16,
    pub how_related: u16,
    pub term_id: u16,
    pub group_id: u16,
    pub precedence: u16,
    pub has_media_uri: u8,
    pub media_uri: Range,
    pub has_dvb_binary_locator: u8,
    pub dvb_binary_locator: FlatLocator,
    pub reserved_number_items: u16,
    pub number_items: usize,
    pub default_icon_flag: u8,
    pub icon_id: u16,
    pub descriptors: Range,
}

// The record of a link: `number_items` of the items count, the others mean nothing.
#[repr(C)]
#[derive(Drop)]
pub struct FlatLink {
    pub fields: FlatFields,
    pub items: [LinkItem; LinkInfo::MOST_ITEMS],
}

fn uri_range(uri: Option<Range>) -> Range
    ensures { result ≡ uri_range uri }
{
    match uri {
        None => Range {
            start: 0,
            length: 0,
        },
        Some(range) => range,
    }
}

fn uri_of(present: u8, range: Range) -> Option<Range>
    ensures { result ≡ uri_of present range }
{
    if is_set(present) {
        return Some(range);
    }
    None
}

// A locator of zeros: what stands where there is none.
fn no_locator() -> DvbBinaryLocator
    ensures { result ≡ no_locator }
{
    DvbBinaryLocator::with_reserved(
        false,
        0,
        0,
        DvbLocatorService::Triplet {
            dvb_service_triplet_id: 0,
        },
        0,
        0,
        DvbLocatorIdentifier::None,
        None,
    )
}

fn place_flat(locator: Option<DvbBinaryLocator>) -> FlatLocator
    ensures { result ≡ place_flat locator }
{
    match locator {
        None => FlatLocator::of(no_locator()),
        Some(there) => FlatLocator::of(there),
    }
}

fn place_of(present: u8, locator: FlatLocator) -> Option<DvbBinaryLocator>
    ensures { result ≡ place_of present locator }
{
    if is_set(present) {
        return Some(locator.locator());
    }
    None
}

impl FlatFields {
    pub fn of(fields: LinkFields) -> FlatFields
        ensures { result ≡ fields_flat fields }
    {
        let uri = fields.media_uri;
        let locator = fields.dvb_binary_locator;
        let descriptors = fields.descriptors;
        FlatFields {
            reserved_link_info_length: fields.reserved_link_info_length,
            link_type: fields.link_type,
            reserved_link_type: fields.reserved_link_type,
            how_related: fields.how_related,
            term_id: fields.term_id,
            group_id: fields.group_id,
            precedence: fields.precedence,
            has_media_uri: wire::flag(link_draft::uri_here(uri)),
            media_uri: uri_range(uri),
            has_dvb_binary_locator: wire::flag(link_draft::locator_here(locator)),
            dvb_binary_locator: place_flat(locator),
            reserved_number_items: fields.reserved_number_items,
            number_items: fields.number_items,
            default_icon_flag: wire::flag(fields.default_icon_flag),
            icon_id: fields.icon_id,
            descriptors,
        }
    }

    pub fn fields(self) -> LinkFields
        ensures { result ≡ fields_of self }
    {
        let uri = self.media_uri;
        let locator = self.dvb_binary_locator;
        let descriptors = self.descriptors;
        LinkFields {
            reserved_link_info_length: self.reserved_link_info_length,
            link_type: self.link_type,
            reserved_link_type: self.reserved_link_type,
            how_related: self.how_related,
            term_id: self.term_id,
            group_id: self.group_id,
            precedence: self.precedence,
            media_uri: uri_of(self.has_media_uri, uri),
            dvb_binary_locator: place_of(self.has_dvb_binary_locator, locator),
            reserved_number_items: self.reserved_number_items,
            number_items: self.number_items,
            default_icon_flag: is_set(self.default_icon_flag),
            icon_id: self.icon_id,
            descriptors,
        }
    }
}

impl FlatLink {
    pub fn of(link: LinkInfo) -> FlatLink
        ensures { result ≡ link_flat link }
    {
        let fields = link.fields;
        let items = link.items;
        FlatLink {
            fields: FlatFields::of(fields),
            items,
        }
    }

    pub fn link(self) -> LinkInfo
        ensures { result ≡ info_of self }
    {
        let fields = self.fields;
        let items = self.items;
        LinkInfo {
            fields: fields.fields(),
            items,
        }
    }
}
