// Reading words and numbers of a line by a form.
use crate::form::{Part, is_letter, word_at};
use crate::scan::{Fault, Scan};
use console::Short;

// The most numbers that a form has.
const MOST_NUMBERS: usize = 12;

// The numbers of a form, in its order, and zeros behind them.
pub type Numbers = [u16; MOST_NUMBERS];

// A place in a form: a character there, and where the word starts that it is of, or else the next one.
#[derive(Drop)]
struct Place {
    at: usize,
    c: u8,
    word: usize,
}

fn word_from(c: u8, word: usize, next: usize) -> usize {
    if is_letter(c) { word } else { next }
}

// Past a character. Where it is missing, so is the whole word.
fn past(scan: &mut Scan<'_>, form: &[u8], place: Place) -> Result<(), Fault> {
    if place.c == b'_' {
        return Ok(());
    }
    if scan.is_at(place.c) {
        scan.pass();
        return Ok(());
    }
    let passed = place.at.saturating_sub(place.word);
    let start = scan.at.saturating_sub(passed);
    Err(Fault::lacks(start, word_at(form, place.word)))
}

// Keeps the next number.
fn keep(numbers: &mut Numbers, count: usize, number: u16) -> usize {
    if count < MOST_NUMBERS {
        numbers[count] = number;
    }
    std::num::wrapping_add_usize(count, 1)
}

// Reads what a form says, from where the scan stands.
pub fn read(scan: &mut Scan<'_>, form: &[u8]) -> Result<Numbers, Fault> {
    let mut numbers = [0u16; MOST_NUMBERS];
    let mut count: usize = 0;
    let mut word: usize = 0;
    for (at, c) in form.iter().enumerate() {
        word = word_from(*c, word, std::num::wrapping_add_usize(at, 1));
        match Part::of(*c) {
            Some(part) => {
                let number = scan.number(part)?;
                count = keep(&mut numbers, count, number);
            }
            None => past(scan, form, Place { at, c: *c, word })?,
        }
    }
    Ok(numbers)
}

// The same by a short form.
pub fn read_short(scan: &mut Scan<'_>, form: Short) -> Result<Numbers, Fault> {
    read(scan, &form)
}

// Reads what a short form says if the line goes on so, and answers whether it does.
pub fn goes_on(scan: &mut Scan<'_>, form: Short) -> bool {
    let mut ahead = *scan;
    if read_short(&mut ahead, form).is_err() {
        return false;
    }
    *scan = ahead;
    true
}
