// A set of numbers: its four words, the lowest numbers first, each in 16 digits to base 16.
use console::Short;
use console::print::{put_hex, say};
use number_set::NumberSet;
use script::read::read_short;
use script::scan::{Fault, Scan};
use std::io;
use wire::{be32, to_be32};

// The first word of a set and the others in a call: eight bytes each, the highest first.
const FIRST: Short = *b" ********_______________";

const NEXT: Short = *b",********_______________";

pub const COMMA: Short = *b",_______________________";

// What a word's upper half counts in.
const HALF: u64 = 0x1_0000_0000;

// A number of two digits.
fn byte(number: u16) -> u8 {
    (number % 256) as u8
}

fn read_word(scan: &mut Scan<'_>, form: Short) -> Result<u64, Fault> {
    let n = read_short(scan, form)?;
    let high = be32(byte(n[0]), byte(n[1]), byte(n[2]), byte(n[3]));
    let low = be32(byte(n[4]), byte(n[5]), byte(n[6]), byte(n[7]));
    Ok((high as u64) * HALF + (low as u64))
}

// A set behind a space.
pub fn read_set(scan: &mut Scan<'_>) -> Result<NumberSet, Fault> {
    let first = read_word(scan, FIRST)?;
    let second = read_word(scan, NEXT)?;
    let third = read_word(scan, NEXT)?;
    let fourth = read_word(scan, NEXT)?;
    let words = [first, second, third, fourth];
    Ok(NumberSet { words })
}

fn put_half(rt: &impl Print, half: u32) -> io::Result<()> {
    let bytes = to_be32(half);
    put_hex(rt, &bytes)
}

fn put_digits(rt: &impl Print, word: u64) -> io::Result<()> {
    put_half(rt, (word / HALF) as u32)?;
    put_half(rt, (word % HALF) as u32)
}

pub fn put_set(rt: &impl Print, set: NumberSet) -> io::Result<()> {
    put_digits(rt, set.words[0])?;
    say(rt, COMMA)?;
    put_digits(rt, set.words[1])?;
    say(rt, COMMA)?;
    put_digits(rt, set.words[2])?;
    say(rt, COMMA)?;
    put_digits(rt, set.words[3])
}
