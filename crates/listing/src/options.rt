// The options that both listings take.
use crate::{Program, messages};
use std::io;

// What was asked for, and whether each word was known. Flags are right here: each option is a word of the command line by
// itself, and any of them can be given with any other.
#[derive(Clone, Copy)]
pub struct Options {
    pub is_checked: bool,
    pub is_all: bool,
    pub is_hex: bool,
    pub is_help: bool,
    pub is_known: bool,
}

impl Options {
    pub fn none() -> Options {
        Options {
            is_checked: false,
            is_all: false,
            is_hex: false,
            is_help: false,
            is_known: true,
        }
    }

    // With one word more. Their order means nothing, nor that one comes again.
    pub fn with_word(mut self, word: &[u8]) -> Options {
        match word {
            b"--check" => self.is_checked = true,
            b"--all" => self.is_all = true,
            b"--hex" => self.is_hex = true,
            b"--help" => self.is_help = true,
            _ => self.is_known = false,
        }
        self
    }

    // Whether a message is due: a word is not known, and help, which tells them all, was not asked for.
    pub fn are_wrong(self) -> bool {
        !self.is_help && !self.is_known
    }
}

// Says that a word is no option, if it is none.
pub fn tell_word(program: &Program<impl Print>, word: &[u8]) -> io::Result<()> {
    let alone = Options::none().with_word(word);
    if !alone.is_known {
        messages::tell_unknown(program, word)?;
    }
    Ok(())
}
