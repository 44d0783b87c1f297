// Input by digits to base 16, with white space anywhere between them.
use crate::{Program, messages};
use console::digits::digit;
use std::io;
use std::io::Read;

// The most characters that are read at a time.
const BLOCK: usize = 4096;

// What ends the digits: a character that is none, a digit that there is no room for, or the end of the input.
#[derive(Clone, Copy)]
enum End {
    Wrong,
    More,
    Over,
}

// How far the digits are taken: how many, how many characters were looked at, and what ended them, if anything did.
#[derive(Clone, Copy)]
struct Digits {
    count: usize,
    characters: usize,
    end: Option<End>,
}

impl Digits {
    fn none() -> Digits {
        Digits {
            count: 0,
            characters: 0,
            end: None,
        }
    }
}

fn is_white(c: u8) -> bool {
    matches!(c, b' ' | b'\t' | b'\r' | b'\n')
}

// One digit more: the buffer is zeros, so that of two digits of a byte the second moves the first up.
fn put_digit(bytes: &mut [u8], mut digits: Digits, value: usize) -> Digits {
    let at = digits.count / 2;
    if at < bytes.len() {
        bytes[at] = bytes[at] % 16 * 16 + (value % 16) as u8;
        digits.count = std::num::wrapping_add_usize(digits.count, 1);
        return digits;
    }
    digits.end = Some(End::More);
    digits
}

fn take_character(bytes: &mut [u8], mut digits: Digits, c: u8) -> Digits {
    let value = digit(c);
    digits.characters = std::num::wrapping_add_usize(digits.characters, 1);
    if value < 16 {
        return put_digit(bytes, digits, value);
    }
    if !is_white(c) {
        digits.end = Some(End::Wrong);
    }
    digits
}

fn take_block(bytes: &mut [u8], before: Digits, block: &[u8]) -> Digits {
    let mut digits = before;
    for c in block {
        digits = take_character(bytes, digits, *c);
        if digits.end.is_some() {
            return digits;
        }
    }
    digits
}

// Reads once.
fn take_some(bytes: &mut [u8], mut digits: Digits, input: &mut impl Read) -> io::Result<Digits> {
    let mut block = [0u8; BLOCK];
    let n = input.read(&mut block)?;
    if n == 0 {
        digits.end = Some(End::Over);
        return Ok(digits);
    }
    Ok(take_block(bytes, digits, &block[..n]))
}

// A proved loop has to end, and nothing says that an input does: so it counts up to a number that no run uses up.
fn take_digits(bytes: &mut [u8], input: &mut impl Read) -> io::Result<Digits> {
    let mut digits = Digits::none();
    for _ in 0..u64::MAX {
        digits = take_some(bytes, digits, input)?;
        if digits.end.is_some() {
            return Ok(digits);
        }
    }
    Ok(digits)
}

// The bytes of digits that nothing is wrong with, if they are none too few.
fn bytes_of(program: &Program<impl Print>, digits: usize) -> io::Result<Option<usize>> {
    if digits % 2 == 1 {
        messages::tell_odd(program)?;
        return Ok(None);
    }
    Ok(Some(digits / 2))
}

// The bytes that the digits say, into a buffer of zeros.
pub(crate) fn take_hex(
    program: &Program<impl Print>,
    input: &mut impl Read,
    bytes: &mut [u8],
) -> io::Result<Option<usize>> {
    let digits = take_digits(bytes, input)?;
    match digits.end {
        Some(End::Wrong) => {
            messages::tell_character(program, digits.characters)?;
            Ok(None)
        }
        Some(End::More) => {
            messages::tell_more(program)?;
            Ok(Some(bytes.len()))
        }
        _ => bytes_of(program, digits.count),
    }
}
