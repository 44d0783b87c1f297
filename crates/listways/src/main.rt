// Carries out the commands on standard input as rctlist and rntlist do, so that each way of listing is held to what is
// stored. A line is a program's name, its options and a file's name, one space apart; it is printed before what it lists,
// and messages go where the listing goes.
#![tactic(auto)]

use console::lines::{Unread, char_at, read_line};
use console::print::{end_line, put_text};
use listing::Program;
use listing::options::{Options, tell_word};
use spans::{Span, handed};
use std::fs::File;
use std::io::Read;
use std::rt::Files;
use std::{io, str};

// The most characters that a line has.
const LONGEST: usize = 128;

// The most characters that are read at a time.
const BLOCK: usize = 4096;

// What the words of a line ask for up to the one that starts at `word_at`: either program with its options, and the part of
// the line that is the file's name.
#[derive(Clone, Copy)]
struct Command {
    is_rnt: bool,
    options: Options,
    file: Span,
    word_at: usize,
}

impl Command {
    fn none() -> Command {
        let options = Options::none();
        Command {
            is_rnt: false,
            options,
            file: Span {
                start: 0,
                length: 0,
            },
            word_at: 0,
        }
    }

    fn program<P: Print>(self, rt: &P) -> Program<&P> {
        if self.is_rnt {
            return rnt_listing::program(rt);
        }
        rct_listing::program(rt)
    }

    // With an option, or, where they are told, with a message if it is none.
    fn with_option(mut self, rt: &impl Print, word: &[u8], are_told: bool) -> io::Result<Command> {
        if are_told {
            tell_word(&self.program(rt), word)?;
            return Ok(self);
        }
        let options = self.options.with_word(word);
        self.options = options;
        Ok(self)
    }

    // With the word that ends at a place. The first one is the program's name, of which the second letter tells which.
    fn with_word(
        mut self,
        rt: &impl Print,
        line: &[u8],
        end: usize,
        are_told: bool,
    ) -> io::Result<Command> {
        let start = self.word_at;
        let length = std::num::wrapping_sub_usize(end, start);
        let word = Span { start, length };
        self.word_at = std::num::wrapping_add_usize(end, 1);
        if start == 0 {
            self.is_rnt = char_at(line, 1) == b'n';
            return Ok(self);
        }
        if char_at(line, start) == b'-' {
            return self.with_option(rt, handed(line, word), are_told);
        }
        self.file = word;
        Ok(self)
    }

    fn with_character(
        self,
        rt: &impl Print,
        line: &[u8],
        at: usize,
        are_told: bool,
    ) -> io::Result<Command> {
        if char_at(line, at) == b' ' {
            return self.with_word(rt, line, at, are_told);
        }
        Ok(self)
    }

    fn list(self, rt: &impl Print, input: &mut impl Read) -> io::Result<()> {
        let options = self.options;
        let program = self.program(rt);
        if self.is_rnt {
            return rnt_listing::run(rt, &program, options, input);
        }
        rct_listing::run(rt, &program, options, input)
    }
}

fn read_words(rt: &impl Print, line: &[u8], are_told: bool) -> io::Result<Command> {
    let mut command = Command::none();
    for at in 0..line.len() {
        command = command.with_character(rt, line, at, are_told)?;
    }
    command.with_word(rt, line, line.len(), are_told)
}

// The file of a name, where it can be opened.
fn opened<R: Files>(rt: &R, name: &[u8]) -> Option<R::File> {
    let name = str::from_utf8(name).ok()?;
    File::open(rt, name).ok()
}

// A file that cannot be opened is listed as one that has nothing in it.
fn carry_out(rt: &(impl Print + Files), line: &[u8]) -> io::Result<()> {
    let command = read_words(rt, line, false)?;
    let file = command.file;
    if command.options.are_wrong() {
        read_words(rt, line, true)?;
    }
    match opened(rt, handed(line, file)) {
        Some(mut input) => command.list(rt, &mut input),
        None => command.list(rt, &mut io::empty()),
    }
}

fn show(rt: &impl Print, line: &[u8]) -> io::Result<()> {
    put_text(rt, b"$ ")?;
    put_text(rt, line)?;
    end_line(rt)
}

// A proved loop has to end, and nothing says that the input does: so it counts up to a number that no run uses up.
fn run(
    rt: &(impl Print + Files),
    input: &mut impl Read,
    block: &mut [u8],
    line: &mut [u8],
) -> io::Result<()> {
    let mut unread = Unread::nothing();
    for _ in 0..u64::MAX {
        let Some(read) = read_line(input, block, line, unread)? else {
            return Ok(());
        };
        let kept = Span {
            start: 0,
            length: read.kept,
        };
        show(rt, handed(&line[..], kept))?;
        carry_out(rt, handed(&line[..], kept))?;
        unread = read.unread;
    }
    Ok(())
}

fn main(rt: HostRuntime) -> io::Result<()> {
    let mut block = [0u8; BLOCK];
    let mut line = [0u8; LONGEST];
    run(&rt, &mut rt.stdin(), &mut block, &mut line)
}
