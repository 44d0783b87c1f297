// What a listing program says besides its listing. The help goes to standard output, all else to where messages go.
use crate::{MOST, Program};
use console::print::{put, put_number, put_text, say};
use std::io;

fn tell(program: &Program<impl Print>, form: &[u8]) -> io::Result<()> {
    put(&program.messages, form, &[])
}

fn tell_number(program: &Program<impl Print>, number: usize) -> io::Result<()> {
    put_number(&program.messages, number)
}

// What every message begins with.
fn tell_name(program: &Program<impl Print>) -> io::Result<()> {
    say(&program.messages, program.name)?;
    tell(program, b": ")
}

pub(crate) fn tell_unknown(program: &Program<impl Print>, word: &[u8]) -> io::Result<()> {
    tell_name(program)?;
    put_text(&program.messages, word)?;
    tell(program, b" is no option\n")
}

// The place of a character is counted from 1.
pub(crate) fn tell_character(program: &Program<impl Print>, place: usize) -> io::Result<()> {
    tell_name(program)?;
    tell(program, b"character ")?;
    tell_number(program, place)?;
    tell(program, b" is no hex digit\n")
}

pub(crate) fn tell_odd(program: &Program<impl Print>) -> io::Result<()> {
    tell_name(program)?;
    tell(program, b"an odd number of hex digits\n")
}

pub(crate) fn tell_more(program: &Program<impl Print>) -> io::Result<()> {
    tell_name(program)?;
    tell(program, b"more than ")?;
    tell_number(program, MOST)?;
    tell(program, b" bytes; only the first ")?;
    tell_number(program, MOST)?;
    tell(program, b" are read\n")
}

fn help(rt: &impl Print, form: &[u8]) -> io::Result<()> {
    put(rt, form, &[])
}

pub(crate) fn put_help(rt: &impl Print, program: &Program<impl Print>) -> io::Result<()> {
    help(rt, b"usage: ")?;
    say(rt, program.name)?;
    help(
        rt,
        b" [--check] [--all] [--hex] [--help] [FILE]\nLists the ",
    )?;
    say(rt, program.section)?;
    help(rt, b" section in FILE, or on standard input.\n\n")?;
    help(
        rt,
        b"  --check  by the checked reading: syntax indicator, length limit and CRC too\n",
    )?;
    help(
        rt,
        b"  --all    every part of it: names of numbers, texts, and descriptors in hex\n",
    )?;
    help(
        rt,
        b"  --hex    hex digits, with white space or without, instead of bytes\n",
    )?;
    help(rt, b"  --help   this text\n\n")?;
    help(
        rt,
        b"Exit status: 0 a listing, 1 a refusal, 2 a usage error.\n",
    )
}
