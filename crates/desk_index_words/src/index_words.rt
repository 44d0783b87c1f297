// An index: its three sets, the number of descriptors and the places. An answer has the members of each set besides.
use crate::set_words::{COMMA, put_set, read_set};
use console::Short;
use console::print::{put_number, put_short, say};
use rct_edit::MOST_LINKS;
use rct_index::{LinkSets, RctIndex};
use script::calls::NUMBERS;
use script::read::read_short;
use script::scan::{Fault, Scan};
use std::io;

const URI: Short = *b" index uri=_____________";

const LOCATOR: Short = *b" locator=_______________";

const ICON: Short = *b" icon=__________________";

const COUNTS: Short = *b" counts=________________";

// The number of descriptors and the first place, which NUMBERS has in a call, and every other place.
const FIRST: Short = *b" descriptors=# places=#_";

const NEXT: Short = *b",#______________________";

// The first place, and those behind it.
fn read_places(scan: &mut Scan<'_>, first: u16) -> Result<[u16; MOST_LINKS], Fault> {
    let mut places = [first; MOST_LINKS];
    for i in 1..MOST_LINKS {
        let next = read_short(scan, NEXT)?;
        places[i] = next[0];
    }
    Ok(places)
}

fn put_places(rt: &impl Print, places: &[u16]) -> io::Result<()> {
    for i in 1..places.len() {
        put_short(rt, NEXT, [RctIndex::place(places, i), 0, 0, 0])?;
    }
    Ok(())
}

// Any index: nothing says that it is one of a section.
pub fn read_index(scan: &mut Scan<'_>) -> Result<RctIndex, Fault> {
    let uri = read_set(scan)?;
    let locator = read_set(scan)?;
    let icon = read_set(scan)?;
    let first = read_short(scan, NUMBERS)?;
    let places = read_places(scan, first[1])?;
    Ok(RctIndex {
        sets: LinkSets { uri, locator, icon },
        places,
        descriptors: first[0],
    })
}

fn put_sets(rt: &impl Print, sets: LinkSets) -> io::Result<()> {
    let uri = sets.uri;
    let locator = sets.locator;
    let icon = sets.icon;
    say(rt, URI)?;
    put_set(rt, uri)?;
    say(rt, LOCATOR)?;
    put_set(rt, locator)?;
    say(rt, ICON)?;
    put_set(rt, icon)?;
    say(rt, COUNTS)?;
    put_number(rt, number_count::count(uri))?;
    say(rt, COMMA)?;
    put_number(rt, number_count::count(locator))?;
    say(rt, COMMA)?;
    put_number(rt, number_count::count(icon))
}

pub fn put_index(rt: &impl Print, index: RctIndex) -> io::Result<()> {
    let sets = index.sets;
    put_sets(rt, sets)?;
    put_short(rt, FIRST, [index.descriptors, index.places[0], 0, 0])?;
    put_places(rt, &index.places)
}
