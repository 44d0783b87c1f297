// Holds the two tables of docs/REFUSALS.md, which lies in data/, against the code: each number with its name, and each place of
// refusal 22 with its name and its widest number. It prints how many there are, or the first row that is not as the code has it.
#![tactic(auto)]

mod rows;
mod table;

use console::Short;
use console::input::read_full;
use console::print::{end_line, put_number, say};
use field::Field;
use rows::{FIELD_COUNT, FIELD_NAMES, NUMBER_COUNT, NUMBER_NAMES, field_at, name_at, number_at};
use std::fs::File;
use std::io;
use table::{Seen, front, next_row, past_cell, past_number};

const PAGE: &str = "REFUSALS.md";

// The most bytes of the page that are read.
const LONGEST: usize = 65536;

const NUMBERS_SAID: Short = *b" numbers and ___________";

const PLACES_SAID: Short = *b" places as in the code__";

const OTHER: Short = *b"not as in the code: ____";

const MORE: Short = *b"more rows than the code_";

const SPACE: Short = *b" _______________________";

fn put_other(rt: &impl Print, number: usize, name: &[u8]) -> io::Result<()> {
    say(rt, OTHER)?;
    put_number(rt, number)?;
    say(rt, SPACE)?;
    rt.write_all(name)?;
    end_line(rt)
}

// The row at a place has the number and the name of the code's row. The names are looked up here and not in the loop over the
// rows, where each step of its proof would go through all of them.
fn number_row(rt: &impl Print, page: &[u8], at: usize, i: usize) -> io::Result<Seen> {
    let names = NUMBER_NAMES;
    let name = name_at(&names, i);
    let number = wire::wide(number_at(i));
    let seen = past_cell(page, past_number(page, front(page, at), number), name);
    if !seen.is_same {
        put_other(rt, number, name)?;
    }
    Ok(seen)
}

// The field's place is its rank, of which the code answers the field.
fn is_listed(field: Field) -> bool {
    let listed = Field::of_rank(field.rank);
    match listed {
        Some(known) => (known.rank == field.rank) & (known.widest == field.widest),
        None => false,
    }
}

fn field_row(rt: &impl Print, page: &[u8], at: usize, i: usize) -> io::Result<Seen> {
    let names = FIELD_NAMES;
    let name = name_at(&names, i);
    let field = field_at(i);
    let seen = past_cell(page, past_number(page, front(page, at), field.rank), name);
    let seen = past_number(page, seen, field.widest);
    let is_same = seen.is_same & is_listed(field);
    if !is_same {
        put_other(rt, field.rank, name)?;
    }
    Ok(Seen {
        at: seen.at,
        is_same,
    })
}

// The numbers' rows. The answer: the place behind them, and whether all are as in the code.
fn number_rows(rt: &impl Print, page: &[u8]) -> io::Result<Seen> {
    let mut seen = Seen {
        at: 0,
        is_same: true,
    };
    for i in 0..NUMBER_COUNT {
        seen = number_row(rt, page, next_row(page, seen.at), i)?;
        if !seen.is_same {
            return Ok(seen);
        }
    }
    Ok(seen)
}

fn field_rows(rt: &impl Print, page: &[u8], from: Seen) -> io::Result<Seen> {
    let mut seen = from;
    for i in 0..FIELD_COUNT {
        seen = field_row(rt, page, next_row(page, seen.at), i)?;
        if !seen.is_same {
            return Ok(seen);
        }
    }
    Ok(seen)
}

fn compare(rt: &impl Print, page: &[u8]) -> io::Result<()> {
    let seen = number_rows(rt, page)?;
    if !seen.is_same {
        return Ok(());
    }
    let seen = field_rows(rt, page, seen)?;
    if !seen.is_same {
        return Ok(());
    }
    if next_row(page, seen.at) < page.len() {
        return say(rt, MORE);
    }
    put_number(rt, NUMBER_COUNT)?;
    say(rt, NUMBERS_SAID)?;
    put_number(rt, FIELD_COUNT)?;
    say(rt, PLACES_SAID)?;
    end_line(rt)
}

fn main(rt: HostRuntime) -> io::Result<()> {
    let mut file = File::open(&rt, PAGE)?;
    let mut page = [0u8; LONGEST];
    let count = read_full(&mut file, &mut page)?;
    compare(&rt, &page[..count])
}
