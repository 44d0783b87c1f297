// The calls of a script that change the lent buffer: make, append and replace. What is promised of this crate is that it
// traps on nothing and ends; the gate runs it on stored input with rctdesk.
#![tactic(auto)]

use console::Short;
use desk_links::link_words::read_link;
use desk_records::edited_words::put_edited;
use desk_records::section_words::{NewSection, read_section};
use script::calls::{NUMBER, Stop, call_of};
use script::read::read_short;
use script::scan::Scan;

// The calls of this crate.
#[derive(Clone, Copy)]
enum Call {
    Make,
    Append,
    Replace,
}

const CALLS: [(Short, Call); 3] = [
    (*b"make____________________", Call::Make),
    (*b"append__________________", Call::Append),
    (*b"replace_________________", Call::Replace),
];

fn make(rt: &impl Print, mut scan: Scan<'_>, b: &mut [u8], text: &[u8]) -> Result<(), Stop> {
    let NewSection {
        header,
        reserved,
        descriptors,
    } = read_section(&mut scan)?;
    scan.end()?;
    let edited = rct_maker::make(b, header, reserved, text, descriptors);
    put_edited(rt, &b[..], edited)?;
    Ok(())
}

fn append(rt: &impl Print, mut scan: Scan<'_>, b: &mut [u8], text: &[u8]) -> Result<(), Stop> {
    let link = read_link(&mut scan)?;
    scan.end()?;
    let edited = rct_editor::editing::append(b, text, link);
    put_edited(rt, &b[..], edited)?;
    Ok(())
}

fn replace(rt: &impl Print, mut scan: Scan<'_>, b: &mut [u8], text: &[u8]) -> Result<(), Stop> {
    let numbers = read_short(&mut scan, NUMBER)?;
    let link = read_link(&mut scan)?;
    scan.end()?;
    let edited = rct_editor::editing::replace(b, numbers[0] as usize, text, link);
    put_edited(rt, &b[..], edited)?;
    Ok(())
}

// Carries out the call that a line has, if it is one of these. The answer: whether it is.
pub fn carry_out(rt: &impl Print, line: &[u8], b: &mut [u8], text: &[u8]) -> Result<bool, Stop> {
    let Some((call, scan)) = call_of(line, &CALLS) else {
        return Ok(false);
    };
    match call {
        Call::Make => make(rt, scan, b, text)?,
        Call::Append => append(rt, scan, b, text)?,
        Call::Replace => replace(rt, scan, b, text)?,
    }
    Ok(true)
}
