// The calls of a script that have an index beside the lent buffer: index, index=, ixappend and ixreplace. The index that one
// of them leaves is the next one's. What is promised of this crate is that it traps on nothing and ends; the gate runs it on
// stored input with rctdesk.
#![tactic(auto)]

use console::Short;
use console::print::{put_refusal, say};
use desk_index_words::index_words::{put_index, read_index};
use desk_links::link_words::read_link;
use desk_records::edited_words::put_edited;
use rct_index::{IndexEdited, RctIndex};
use script::calls::{NUMBER, OK, SET, Stop, call_of};
use script::read::read_short;
use script::scan::Scan;
use std::io;
use wire::verdict::Refusal;

// The calls of this crate.
#[derive(Clone, Copy)]
enum Call {
    Build,
    HandIn,
    Append,
    Replace,
}

const CALLS: [(Short, Call); 4] = [
    (*b"index___________________", Call::Build),
    (*b"index=__________________", Call::HandIn),
    (*b"ixappend________________", Call::Append),
    (*b"ixreplace_______________", Call::Replace),
];

// A refused building leaves an index of nothing, and it is kept.
fn put_built(rt: &impl Print, built: Result<RctIndex, Refusal>) -> io::Result<RctIndex> {
    let index = match built {
        Ok(index) => {
            say(rt, OK)?;
            index
        }
        Err(refusal) => {
            put_refusal(rt, refusal)?;
            RctIndex::none()
        }
    };
    put_index(rt, index)?;
    Ok(index)
}

// What an edit answered, and the index as it was brought up.
fn put_brought(rt: &impl Print, b: &[u8], brought: IndexEdited) -> io::Result<RctIndex> {
    let edited = brought.edited;
    let index = brought.index;
    put_edited(rt, b, edited)?;
    put_index(rt, index)?;
    Ok(index)
}

fn build(rt: &impl Print, scan: Scan<'_>, s: &[u8]) -> Result<RctIndex, Stop> {
    scan.end()?;
    let index = put_built(rt, rct_indexer::build_index(s))?;
    Ok(index)
}

fn hand_in(rt: &impl Print, mut scan: Scan<'_>) -> Result<RctIndex, Stop> {
    let index = read_index(&mut scan)?;
    scan.end()?;
    say(rt, SET)?;
    Ok(index)
}

fn append(
    rt: &impl Print,
    mut scan: Scan<'_>,
    b: &mut [u8],
    text: &[u8],
    index: RctIndex,
) -> Result<RctIndex, Stop> {
    let link = read_link(&mut scan)?;
    scan.end()?;
    let brought = rct_index_editor::append(b, text, link, index);
    let index = put_brought(rt, &b[..], brought)?;
    Ok(index)
}

fn replace(
    rt: &impl Print,
    mut scan: Scan<'_>,
    b: &mut [u8],
    text: &[u8],
    index: RctIndex,
) -> Result<RctIndex, Stop> {
    let numbers = read_short(&mut scan, NUMBER)?;
    let link = read_link(&mut scan)?;
    scan.end()?;
    let brought = rct_index_editor::replace(b, numbers[0] as usize, text, link, index);
    let index = put_brought(rt, &b[..], brought)?;
    Ok(index)
}

// Carries out the call that a line has, if it is one of these. The answer: the index that is kept from there on.
pub fn carry_out(
    rt: &impl Print,
    line: &[u8],
    b: &mut [u8],
    text: &[u8],
    index: RctIndex,
) -> Result<Option<RctIndex>, Stop> {
    let Some((call, scan)) = call_of(line, &CALLS) else {
        return Ok(None);
    };
    let kept = match call {
        Call::Build => build(rt, scan, &b[..])?,
        Call::HandIn => hand_in(rt, scan)?,
        Call::Append => append(rt, scan, b, text, index)?,
        Call::Replace => replace(rt, scan, b, text, index)?,
    };
    Ok(Some(kept))
}
