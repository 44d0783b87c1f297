// Printing by forms. What one of these functions prints is gathered in a block, which is written when it is full and at the
// end. Numbers used are counted by wrapping sums: none comes near the end of its type, and no proof has to say so.
use crate::digits::{Digits, MOST_DIGITS, decimal, glyph};
use crate::{Short, Word};
use std::io;
use wire::verdict::Refusal;

// The characters that a block has, and the most of them that one character of a form stands for: a number's digits.
const BLOCK: usize = 512;

const LONGEST: usize = MOST_DIGITS;

const REFUSED: Short = *b"refused ________________";

const SPACE: Short = *b" _______________________";

const NEWLINE: Short = *b"\n_______________________";

// How bytes are printed: as the characters of a form, in two digits to base 16 each, or as text.
#[derive(Clone, Copy)]
pub enum Spelling {
    Form,
    Hex,
    Text,
}

// What waits to be written: so many characters at the start of a block.
#[derive(Drop)]
struct Block {
    characters: [u8; BLOCK],
    length: usize,
}

impl Block {
    fn empty() -> Block {
        Block {
            characters: [0; BLOCK],
            length: 0,
        }
    }

    fn add(&mut self, c: u8) {
        if self.length < BLOCK {
            self.characters[self.length] = c;
            self.length += 1;
        }
    }

    // A byte in two digits to base 16.
    fn add_hex(&mut self, byte: u8) {
        self.add(glyph(byte / 16));
        self.add(glyph(byte % 16));
    }

    fn add_number(&mut self, number: u16) {
        let mut digits: Digits = [0; MOST_DIGITS];
        let length = decimal(number as u64, &mut digits);
        for d in digits.iter().take(length) {
            self.add(*d);
        }
    }

    // What a character of a form stands for.
    fn add_part(&mut self, c: u8, number: u16) {
        match c {
            b'_' => {}
            b'#' | b'%' | b'~' | b'?' => self.add_number(number),
            b'*' => self.add_hex((number % 256) as u8),
            _ => self.add(c),
        }
    }

    fn add_escaped(&mut self, byte: u8) {
        self.add(b'\\');
        self.add(b'x');
        self.add_hex(byte);
    }

    // A byte of a text whose character set is not known here: what ASCII prints is itself, any other byte is escaped, and so is
    // what escapes, by being doubled. So no text looks like another, nor has it a line's end in it.
    fn add_character(&mut self, c: u8) {
        match c {
            b'\\' => {
                self.add(c);
                self.add(c);
            }
            b' '..=b'~' => self.add(c),
            _ => self.add_escaped(c),
        }
    }

    fn add_spelt(&mut self, c: u8, spelling: Spelling, number: u16) {
        match spelling {
            Spelling::Form => self.add_part(c, number),
            Spelling::Hex => self.add_hex(c),
            Spelling::Text => self.add_character(c),
        }
    }

    // Writes what waits, so that nothing waits any more.
    fn flush(&mut self, out: &impl Print) -> io::Result<()> {
        if self.length <= BLOCK {
            out.write_all(&self.characters[..self.length])?;
        }
        self.length = 0;
        Ok(())
    }

    // The same where there may be no room for what one character more stands for.
    fn make_room(&mut self, out: &impl Print) -> io::Result<()> {
        if self.length > BLOCK - LONGEST {
            self.flush(out)?;
        }
        Ok(())
    }
}

fn number_at(numbers: &[u16], i: usize) -> u16 {
    numbers.get(i).copied().unwrap_or(0)
}

// How many numbers are used once a character of a form is printed.
fn used_by(c: u8, used: usize) -> usize {
    match c {
        b'#' | b'%' | b'~' | b'?' | b'*' => std::num::wrapping_add_usize(used, 1),
        _ => used,
    }
}

// The one loop of all printing: bytes by one of the spellings, with the numbers that a form has.
pub fn put_to(
    out: &impl Print,
    bytes: &[u8],
    spelling: Spelling,
    numbers: &[u16],
) -> io::Result<()> {
    let mut block = Block::empty();
    let mut used: usize = 0;
    for c in bytes {
        block.add_spelt(*c, spelling, number_at(numbers, used));
        block.make_room(out)?;
        used = used_by(*c, used);
    }
    block.flush(out)
}

// A form with its numbers.
pub fn put(rt: &impl Print, form: &[u8], numbers: &[u16]) -> io::Result<()> {
    put_to(rt, form, Spelling::Form, numbers)
}

// Bytes to base 16.
pub fn put_hex(rt: &impl Print, bytes: &[u8]) -> io::Result<()> {
    put_to(rt, bytes, Spelling::Hex, &[])
}

// Bytes as text.
pub fn put_text(rt: &impl Print, bytes: &[u8]) -> io::Result<()> {
    put_to(rt, bytes, Spelling::Text, &[])
}

pub fn put_short(rt: &impl Print, form: Short, numbers: [u16; 4]) -> io::Result<()> {
    put(rt, &form, &numbers)
}

// A short form that has no numbers.
pub fn say(rt: &impl Print, form: Short) -> io::Result<()> {
    put_short(rt, form, [0; 4])
}

pub fn end_line(rt: &impl Print) -> io::Result<()> {
    say(rt, NEWLINE)
}

pub fn put_word(rt: &impl Print, word: Word) -> io::Result<()> {
    put(rt, &word, &[])
}

// A number of any width.
pub fn put_number(rt: &impl Print, number: usize) -> io::Result<()> {
    rt.print(number)
}

pub fn put_refusal(rt: &impl Print, r: Refusal) -> io::Result<()> {
    say(rt, REFUSED)?;
    put_number(rt, wire::wide(r.number))?;
    say(rt, SPACE)?;
    put_number(rt, r.first)?;
    say(rt, SPACE)?;
    put_number(rt, r.second)
}
