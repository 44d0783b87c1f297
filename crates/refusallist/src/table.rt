// Finding the rows of the page's tables, and going over what a row has.
use console::digits::{Digits, MOST_DIGITS, decimal};
use console::lines::char_at;

// What a row begins with, and what stands between two of its cells.
const FRONT: [u8; 2] = *b"| ";

const BETWEEN: [u8; 3] = *b" | ";

// A place on the page, and whether all that was passed over is as expected.
#[derive(Drop)]
pub struct Seen {
    pub at: usize,
    pub is_same: bool,
}

fn next(at: usize) -> usize {
    std::num::wrapping_add_usize(at, 1)
}

fn is_digit(c: u8) -> bool {
    matches!(c, b'0'..=b'9')
}

// Whether a row of one of the two tables starts behind the newline at this place: no other row starts with a digit.
fn is_row(page: &[u8], at: usize) -> bool {
    char_at(page, at) == b'\n'
        && char_at(page, next(at)) == b'|'
        && is_digit(char_at(page, next(next(next(at)))))
}

// The place of the next row, or the page's end.
pub fn next_row(page: &[u8], from: usize) -> usize {
    for at in from..page.len() {
        if is_row(page, at) {
            return next(at);
        }
    }
    page.len()
}

// Past a character; a dot stands for nothing.
fn past(page: &[u8], seen: Seen, c: u8) -> Seen {
    if c == b'.' {
        return seen;
    }
    Seen {
        at: next(seen.at),
        is_same: seen.is_same & (char_at(page, seen.at) == c),
    }
}

fn past_all(page: &[u8], from: Seen, piece: &[u8]) -> Seen {
    let mut seen = from;
    for c in piece {
        seen = past(page, seen, *c);
    }
    seen
}

// Past a row's first bar.
pub fn front(page: &[u8], at: usize) -> Seen {
    past_all(page, Seen { at, is_same: true }, &FRONT)
}

// Past a cell that has this, and past the bar behind it.
pub fn past_cell(page: &[u8], from: Seen, cell: &[u8]) -> Seen {
    let seen = past_all(page, from, cell);
    past_all(page, seen, &BETWEEN)
}

fn past_front(page: &[u8], from: Seen, digits: &[u8], length: usize) -> Seen {
    if length <= digits.len() {
        return past_cell(page, from, &digits[0..length]);
    }
    from
}

fn spell(digits: &mut Digits, number: usize) -> usize {
    decimal(number as u64, digits)
}

// Past a cell with the first so many of these digits.
fn past_digits(page: &[u8], from: Seen, digits: &Digits, length: usize) -> Seen {
    past_front(page, from, digits, length)
}

pub fn past_number(page: &[u8], from: Seen, number: usize) -> Seen {
    let mut digits: Digits = [0; MOST_DIGITS];
    let length = spell(&mut digits, number);
    past_digits(page, from, &digits, length)
}
