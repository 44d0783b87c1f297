// What a line of a script is: the name of a call, what it says, and nothing behind that.
use crate::read::goes_on;
use crate::scan::{Fault, Scan};
use console::Short;
use console::print::{put_number, put_refusal, put_word, say};
use std::io;
use wire::verdict::Refusal;

const ERROR: Short = *b"error line _____________";

const COLUMN: Short = *b" column ________________";

// What a record is asked by: its number, or that of the record which it is in and its own.
pub const NUMBER: Short = *b" #______________________";

pub const NUMBERS: Short = *b" # #____________________";

// What the answer to a call that reads starts with where it is not refused.
pub const OK: Short = *b"ok______________________";

// The answer to a call that lends or hands in.
pub const SET: Short = *b"set_____________________";

// Why a call is not carried out to its end: what is wrong with its line, or what fails under an answer.
#[derive(Drop)]
pub enum Stop {
    Line(Fault),
    Answer(io::Error),
}

impl From<Fault> for Stop {
    fn from(fault: Fault) -> Stop {
        Stop::Line(fault)
    }
}

impl From<io::Error> for Stop {
    fn from(error: io::Error) -> Stop {
        Stop::Answer(error)
    }
}

// Past the name of a call, if the line has it.
fn called<'a>(line: &'a [u8], name: Short) -> Option<Scan<'a>> {
    let mut scan = Scan::start(line);
    if !goes_on(&mut scan, name) {
        return None;
    }
    if scan.is_at(b' ') || scan.end().is_ok() {
        return Some(scan);
    }
    None
}

// Which of some calls a line has, and the place behind its name.
pub fn call_of<'a, C: Copy>(line: &'a [u8], calls: &[(Short, C)]) -> Option<(C, Scan<'a>)> {
    for (name, call) in calls {
        if let Some(scan) = called(line, *name) {
            return Some((*call, scan));
        }
    }
    None
}

// The start of the answer to a call that reads: what was read is still to be printed, a refusal is the whole answer.
pub fn put_start<T: Drop>(rt: &impl Print, read: Result<T, Refusal>) -> io::Result<Option<T>> {
    match read {
        Ok(found) => {
            say(rt, OK)?;
            Ok(Some(found))
        }
        Err(refusal) => {
            put_refusal(rt, refusal)?;
            Ok(None)
        }
    }
}

// Which line an error is in, the script's first being 1.
pub fn put_error(rt: &impl Print, line_number: usize) -> io::Result<()> {
    say(rt, ERROR)?;
    put_number(rt, line_number)
}

// What is wrong with a line, and at which of its characters, the first being 1.
pub fn put_fault(rt: &impl Print, line_number: usize, fault: Fault) -> io::Result<()> {
    put_error(rt, line_number)?;
    say(rt, COLUMN)?;
    put_number(rt, std::num::wrapping_add_usize(fault.at, 1))?;
    put_word(rt, fault.fault)?;
    put_word(rt, fault.missing)
}
