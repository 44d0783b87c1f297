// Lists what each number stands for as a link's type and as its how_related scheme: the name, and the numbers of its class.
// Then it lists the fields that refusal 22 names by their rank: each with its widest number.
#![tactic(auto)]

use console::Short;
use console::print::{end_line, put_number, put_short, say};
use field::Field;
use link_names::Numbers;
use link_names::link_type::LinkType;
use name_words::{scheme_name, type_name};
use scheme_names::HowRelated;
use std::io;

// One number more than a scheme can have.
const END: u16 = Field::HOW_RELATED.widest as u16 + 2;

const TYPE: Short = *b"#: type ________________";

const SCHEME: Short = *b", related ______________";

const CLASS: Short = *b", # of # to #___________";

const RANK: Short = *b"rank ___________________";

const FIELD: Short = *b": field ________________";

const WIDEST: Short = *b" up to _________________";

const NO_FIELD: Short = *b": no field______________";

// The last rank that is asked for, behind the last field.
const LAST_ASKED: usize = Field::LOOP_LENGTH_RESERVED.rank + 1;

const NOTHING: Short = *b"none____________________";

// A name, and which number of its class it has.
fn put_class(rt: &impl Print, name: Short, number: u16, all: Numbers) -> io::Result<()> {
    say(rt, name)?;
    put_short(rt, CLASS, [number, all.first, all.last, 0])
}

fn put_type(rt: &impl Print, named: Option<LinkType>) -> io::Result<()> {
    match named {
        None => say(rt, NOTHING),
        Some(t) => put_class(rt, type_name(t), t.to_number(), t.numbers()),
    }
}

fn put_scheme(rt: &impl Print, named: Option<HowRelated>) -> io::Result<()> {
    match named {
        None => say(rt, NOTHING),
        Some(h) => put_class(rt, scheme_name(h), h.to_number(), h.numbers()),
    }
}

fn put_names(rt: &impl Print, number: u16) -> io::Result<()> {
    put_short(rt, TYPE, [number, 0, 0, 0])?;
    put_type(rt, LinkType::of_number(number))?;
    say(rt, SCHEME)?;
    put_scheme(rt, HowRelated::of_number(number))?;
    end_line(rt)
}

fn list(rt: &impl Print) -> io::Result<()> {
    for number in 0..END {
        put_names(rt, number)?;
    }
    Ok(())
}

fn put_listed(rt: &impl Print, listed: Option<Field>) -> io::Result<()> {
    match listed {
        None => say(rt, NO_FIELD),
        Some(field) => {
            say(rt, FIELD)?;
            put_number(rt, field.rank)?;
            say(rt, WIDEST)?;
            put_number(rt, field.widest)
        }
    }
}

fn list_fields(rt: &impl Print) -> io::Result<()> {
    for rank in 0..=LAST_ASKED {
        say(rt, RANK)?;
        put_number(rt, rank)?;
        put_listed(rt, Field::of_rank(rank))?;
        end_line(rt)?;
    }
    Ok(())
}

fn main(rt: HostRuntime) -> io::Result<()> {
    list(&rt)?;
    put_names(&rt, u16::MAX)?;
    list_fields(&rt)
}
