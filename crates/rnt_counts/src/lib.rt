// What a program that prints a resolution notification section asks besides its records: where the providers stand, and how
// many authorities one of them has. What is promised of this crate is that it traps on nothing and ends.
#![tactic(auto)]

use frame::payload_end;
use rnt_entries::AuthorityFound;
use rnt_reader::RntSection;

// Where the first provider starts, and where the last one ends.
#[derive(Drop)]
pub struct ProviderPlaces {
    pub first: u16,
    pub end: u16,
}

// A place of a section as its walks take it: no section has as many bytes as 16 bits can count, and no proof has to say so.
fn place(at: usize) -> u16 {
    (at % 65536) as u16
}

// The first provider stands where the common descriptors end.
pub fn places_of(section: RntSection) -> ProviderPlaces {
    let common = section.common_descriptors;
    let first = std::num::wrapping_add_usize(common.start, common.length);
    ProviderPlaces {
        first: place(first),
        end: place(payload_end(section.total)),
    }
}

// The place behind the authority at a place.
fn behind_authority(s: &[u8], end: u16, at: u16) -> u16 {
    let found = rnt_entries::read_authority(s, end, at);
    match found {
        Ok(AuthorityFound { authority: _, next }) => next,
        Err(_) => end,
    }
}

// How many authorities stand between two places: that is printed before them. Each has three bytes at least, so there are
// never as many as bytes before their end, and counting up to these ends no walk too early.
pub fn count_authorities(s: &[u8], end: u16, first: u16) -> usize {
    let most = end as usize;
    let mut at = first;
    for count in 0..most {
        if at >= end {
            return count;
        }
        at = behind_authority(s, end, at);
    }
    most
}
