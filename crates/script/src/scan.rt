// A place in a line that moves on over what is read there, and what is wrong with a line. Places are added by wrapping sums, as
// in the crate console.
use crate::form::{HEX, NOTHING, Part};
use console::Word;
use console::digits::digit;
use console::lines::char_at;

// What is wrong, as an answer says it, behind the column and before what was expected there.
const EXPECTED: Word = *b" expected ";

const TOO_LARGE: Word = *b" too large";

const TOO_LONG: Word = *b" too long_";

const END: Word = *b"end_______";

// The widest number that a line has.
const WIDEST: usize = u16::MAX as usize;

// What is wrong with a line, at which of its characters, and what was expected there.
#[derive(Clone, Copy)]
pub struct Fault {
    pub at: usize,
    pub fault: Word,
    pub missing: Word,
}

impl Fault {
    pub fn lacks(at: usize, missing: Word) -> Fault {
        Fault {
            at,
            fault: EXPECTED,
            missing,
        }
    }

    fn too_large(at: usize) -> Fault {
        Fault {
            at,
            fault: TOO_LARGE,
            missing: NOTHING,
        }
    }

    fn too_long(at: usize) -> Fault {
        Fault {
            at,
            fault: TOO_LONG,
            missing: NOTHING,
        }
    }
}

// A line, and the place in it that is read next.
#[derive(Clone, Copy)]
pub struct Scan<'a> {
    pub line: &'a [u8],
    pub at: usize,
}

// One more digit; what is too wide stays too wide.
fn grown(value: usize, base: usize, digit: usize) -> usize {
    if value > WIDEST {
        return value;
    }
    match base {
        10 => value * 10 + digit % 16,
        _ => value * 16 + digit % 16,
    }
}

// Digits in a row: their value, how many they are, and the place behind them.
#[derive(Drop)]
pub struct Digits {
    pub value: usize,
    pub count: usize,
    pub at: usize,
}

pub fn take_digits(line: &[u8], from: usize, base: usize, most: usize) -> Digits {
    let mut value: usize = 0;
    let mut at = from;
    for count in 0..most {
        let d = digit(char_at(line, at));
        if d >= base {
            return Digits { value, count, at };
        }
        value = grown(value, base, d);
        at = std::num::wrapping_add_usize(at, 1);
    }
    Digits {
        value,
        count: most,
        at,
    }
}

impl<'a> Scan<'a> {
    pub fn start(line: &'a [u8]) -> Scan<'a> {
        Scan { line, at: 0 }
    }

    pub fn is_at(&self, c: u8) -> bool {
        char_at(self.line, self.at) == c
    }

    // Past a character.
    pub fn pass(&mut self) {
        self.at = std::num::wrapping_add_usize(self.at, 1);
    }

    // Nothing follows.
    pub fn end(&self) -> Result<(), Fault> {
        if self.at < self.line.len() {
            return Err(Fault::lacks(self.at, END));
        }
        Ok(())
    }

    // What was counted is at most this.
    pub fn counted(&self, count: u16, most: u16) -> Result<(), Fault> {
        if count > most {
            return Err(Fault::too_long(self.at));
        }
        Ok(())
    }

    // A number that stands right here.
    pub fn number(&mut self, part: Part) -> Result<u16, Fault> {
        let found = take_digits(self.line, self.at, part.base, part.most);
        if found.count < part.least {
            return Err(Fault::lacks(self.at, part.missing));
        }
        if found.value > part.widest as usize {
            return Err(Fault::too_large(found.at));
        }
        self.at = found.at;
        Ok(found.value as u16)
    }

    // Bytes in two digits each up to the line's end: how many, at most `most`.
    pub fn bytes(&mut self, most: u16) -> Result<u16, Fault> {
        let found = take_digits(self.line, self.at, 16, self.line.len());
        let count = found.count / 2;
        if count > most as usize {
            return Err(Fault::too_long(behind(self.at, most as usize)));
        }
        let place = behind(self.at, count);
        if place < self.line.len() {
            return Err(Fault::lacks(place, HEX));
        }
        self.at = place;
        Ok(count as u16)
    }

    // The byte of a number among bytes in two digits each that start here.
    pub fn byte(&self, i: usize) -> u8 {
        (take_digits(self.line, behind(self.at, i), 16, 2).value % 256) as u8
    }
}

// The place behind so many bytes in two digits each.
pub fn behind(at: usize, count: usize) -> usize {
    std::num::wrapping_add_usize(at, std::num::wrapping_add_usize(count, count))
}
