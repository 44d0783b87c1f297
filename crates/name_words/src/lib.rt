// The names of link types and of how_related schemes as the programs print them. What is promised of this crate is that it
// traps on nothing and ends.
#![tactic(auto)]

use console::Short;
use link_names::link_type::LinkType;
use scheme_names::HowRelated;

pub fn type_name(t: LinkType) -> Short {
    match t {
        LinkType::UriString => *b"URI string______________",
        LinkType::BinaryLocator => *b"binary locator__________",
        LinkType::Both => *b"both____________________",
        LinkType::Descriptor => *b"descriptor______________",
        LinkType::DvbReserved(_) => *b"DVB reserved____________",
    }
}

pub fn scheme_name(h: HowRelated) -> Short {
    match h {
        HowRelated::Cs2004 => *b"HowRelatedCS:2004_______",
        HowRelated::Cs2005 => *b"HowRelatedCS:2005_______",
        HowRelated::Cs2007 => *b"HowRelatedCS:2007_______",
        HowRelated::DvbReserved(_) => *b"DVB reserved____________",
        HowRelated::UserPrivate(_) => *b"user private____________",
    }
}
