// Carries out a script of calls on a section, a line each, and prints an answer line for each (docs/RCTDESK.md).
#![tactic(auto)]

mod lend;
mod line;

use console::Short;
use console::lines::{Unread, read_line};
use console::print::{end_line, say};
use lend::{Lent, MOST, lending_call, read_lending};
use line::{says_nothing, without_return};
use rct_index::RctIndex;
use script::calls::{Stop, put_error, put_fault};
use spans::{Span, handed};
use std::io;
use std::io::Read;

// The most characters that a line has, besides the two that may end it.
const LONGEST: usize = 32768;

// The most characters that are read at a time.
const BLOCK: usize = 65536;

// What is wrong with a line.
const UNKNOWN: Short = *b" unknown call___________";

const TOO_LONG: Short = *b" too long_______________";

// The number of the line, how much of the buffer and of the text is lent, and the index that is kept.
#[derive(Clone, Copy)]
struct Desk {
    line_number: usize,
    buf: usize,
    text: usize,
    index: RctIndex,
}

impl Desk {
    // Nothing is lent yet, and the index is one of nothing.
    fn start() -> Desk {
        Desk {
            line_number: 0,
            buf: 0,
            text: 0,
            index: RctIndex::none(),
        }
    }

    fn at_next_line(mut self) -> Desk {
        self.line_number = std::num::wrapping_add_usize(self.line_number, 1);
        self
    }
}

// The groups of calls, each of which says whether the call was its own: a new group is asked here. The answer: the index
// that is kept from here on.
fn dispatch(
    rt: &impl Print,
    line: &[u8],
    b: &mut [u8],
    text: &[u8],
    desk: Desk,
) -> Result<RctIndex, Stop> {
    let index = desk.index;
    if desk_reads::carry_out(rt, line, &b[..])? {
        return Ok(index);
    }
    if desk_rnt::carry_out(rt, line, &b[..])? {
        return Ok(index);
    }
    if desk_edits::carry_out(rt, line, b, text)? {
        return Ok(index);
    }
    if let Some(kept) = desk_index::carry_out(rt, line, b, text, index)? {
        return Ok(kept);
    }
    put_error(rt, desk.line_number)?;
    say(rt, UNKNOWN)?;
    Ok(index)
}

// A call on what is lent, of which there is never more than the arrays hold.
fn on_lent(
    rt: &impl Print,
    line: &[u8],
    buf: &mut [u8],
    text: &[u8],
    desk: Desk,
) -> Result<RctIndex, Stop> {
    let b = desk.buf;
    let t = desk.text;
    if b <= buf.len() && t <= text.len() {
        return dispatch(rt, line, &mut buf[..b], &text[..t], desk);
    }
    Ok(desk.index)
}

// Carries out the call that a line has.
fn carry_out(
    rt: &impl Print,
    line: &[u8],
    buf: &mut [u8],
    text: &mut [u8],
    mut desk: Desk,
) -> Result<Desk, Stop> {
    match lending_call(line) {
        Some((Lent::Buf, scan)) => {
            let lending = read_lending(Lent::Buf, scan)?;
            desk.buf = lending.lend(rt, buf)?;
        }
        Some((Lent::Text, scan)) => {
            let lending = read_lending(Lent::Text, scan)?;
            desk.text = lending.lend(rt, text)?;
        }
        None => {
            let index = on_lent(rt, line, buf, &text[..], desk)?;
            desk.index = index;
        }
    }
    Ok(desk)
}

// The same, with the answer to a line that something is wrong with, which leaves the desk as it is.
fn answer(
    rt: &impl Print,
    line: &[u8],
    buf: &mut [u8],
    text: &mut [u8],
    desk: Desk,
) -> io::Result<Desk> {
    match carry_out(rt, line, buf, text, desk) {
        Ok(carried) => Ok(carried),
        Err(Stop::Line(fault)) => {
            put_fault(rt, desk.line_number, fault)?;
            Ok(desk)
        }
        Err(Stop::Answer(error)) => Err(error),
    }
}

// A line of which so many characters count: one that says nothing has no answer.
fn take(
    rt: &impl Print,
    line: &[u8],
    length: usize,
    buf: &mut [u8],
    text: &mut [u8],
    desk: Desk,
) -> io::Result<Desk> {
    if length > LONGEST {
        put_error(rt, desk.line_number)?;
        say(rt, TOO_LONG)?;
        end_line(rt)?;
        return Ok(desk);
    }
    let line = handed(line, Span { start: 0, length });
    if says_nothing(line) {
        return Ok(desk);
    }
    let desk = answer(rt, line, buf, text, desk)?;
    end_line(rt)?;
    Ok(desk)
}

// A proved loop has to end, and nothing says that a script does: so it counts up to a number that no run uses up.
fn run(
    rt: &impl Print,
    input: &mut impl Read,
    block: &mut [u8],
    line: &mut [u8],
    buf: &mut [u8],
    text: &mut [u8],
    start: Desk,
) -> io::Result<()> {
    let mut desk = start;
    let mut unread = Unread::nothing();
    for _ in 0..u64::MAX {
        let Some(read) = read_line(input, block, line, unread)? else {
            return Ok(());
        };
        let length = without_return(&line[..], read.kept);
        desk = take(rt, &line[..], length, buf, text, desk.at_next_line())?;
        unread = read.unread;
    }
    Ok(())
}

fn main(rt: HostRuntime) -> io::Result<()> {
    let mut block = [0u8; BLOCK];
    let mut line = [0u8; LONGEST + 1];
    let mut buf = [0u8; MOST as usize];
    let mut text = [0u8; MOST as usize];
    let mut input = rt.stdin();
    let start = Desk::start();
    run(
        &rt, &mut input, &mut block, &mut line, &mut buf, &mut text, start,
    )
}
