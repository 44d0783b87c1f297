// An index beside a section: which links have a URI, a locator, the default icon flag, where each link's entry stands, and how
// many descriptors the section's loop has.
#![tactic(auto)]

ghost use Rattle.std.specs.Prelude.{◌≡◌, []};
ghost use Rattle.rct_index.specs.Index.{marks_in, sets_of, with_marks, place_in, no_index};

use link::LinkFields;
use number_set::NumberSet;
use rct_edit::MOST_LINKS;
use wire::verdict::Refusal;

// What an index tells of a link: whether it has a URI, a locator, the default icon flag.
#[derive(Drop)]
pub struct LinkMarks {
    pub uri: bool,
    pub locator: bool,
    pub icon: bool,
}

impl LinkMarks {
    // Of a link's record: what it holds, whatever its type is.
    pub fn of(fields: LinkFields) -> LinkMarks
        ensures { result ≡ marks_in fields }
    {
        let uri = fields.media_uri;
        let locator = fields.dvb_binary_locator;
        LinkMarks {
            uri: link_draft::uri_here(uri),
            locator: link_draft::locator_here(locator),
            icon: fields.default_icon_flag,
        }
    }
}

// For each of the three the numbers of the links that have it.
#[repr(C)]
#[derive(Clone, Copy)]
pub struct LinkSets {
    pub uri: NumberSet,
    pub locator: NumberSet,
    pub icon: NumberSet,
}

impl LinkSets {
    // Of no links.
    pub fn none() -> LinkSets
        ensures { result ≡ sets_of [] }
    {
        LinkSets {
            uri: NumberSet::none(),
            locator: NumberSet::none(),
            icon: NumberSet::none(),
        }
    }

    // With what is told of one link, in place of what was told of it before.
    pub fn with(self, number: u8, marks: LinkMarks) -> LinkSets
        ensures { result ≡ with_marks self number marks }
    {
        let uri = self.uri;
        let locator = self.locator;
        let icon = self.icon;
        LinkSets {
            uri: uri.with(number, marks.uri),
            locator: locator.with(number, marks.locator),
            icon: icon.with(number, marks.icon),
        }
    }
}

#[repr(C)]
#[derive(Clone, Copy)]
pub struct RctIndex {
    pub sets: LinkSets,
    pub places: [u16; MOST_LINKS],
    pub descriptors: u16,
}

impl RctIndex {
    // An index of nothing: zeros.
    pub fn none() -> RctIndex
        ensures { result ≡ no_index }
    {
        RctIndex {
            sets: LinkSets::none(),
            places: [0; MOST_LINKS],
            descriptors: 0,
        }
    }

    // Of an index's places that of a link, and 0 where there is none for its number. The places are lent: no index is copied.
    pub fn place(places: &[u16], number: usize) -> u16
        ensures { result ≡ place_in places.now number }
    {
        if places.len() <= number {
            return 0;
        }
        places[number]
    }
}

// What an edit with an index answers: what the edit does, and the index as it is then.
#[derive(Drop)]
pub struct IndexEdited {
    pub edited: Result<usize, Refusal>,
    pub index: RctIndex,
}
