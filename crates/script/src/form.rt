// What the characters of a form stand for (see the crate console), and its words.
use console::Word;
use console::lines::char_at;

// The most letters that a word has.
const LETTERS: usize = 10;

// The word of no letters.
pub const NOTHING: Word = *b"__________";

// What is expected where a number is.
const DIGITS: Word = *b"digits____";

pub const HEX: Word = *b"hex_______";

// What a number of a form looks like: its base, the least and the most digits, the widest value, and what is expected where
// there is none.
#[derive(Drop)]
pub struct Part {
    pub base: usize,
    pub least: usize,
    pub most: usize,
    pub widest: u16,
    pub missing: Word,
}

impl Part {
    pub const BYTE: Part = Part {
        base: 16,
        least: 2,
        most: 2,
        widest: u8::MAX as u16,
        missing: HEX,
    };

    // A decimal number up to a widest one.
    pub fn number(widest: u16) -> Part {
        Part {
            base: 10,
            least: 1,
            most: usize::MAX,
            widest,
            missing: DIGITS,
        }
    }

    // The number that a character of a form stands for, if it stands for one.
    pub fn of(c: u8) -> Option<Part> {
        match c {
            b'#' => Some(Part::number(u16::MAX)),
            b'%' => Some(Part::number(u8::MAX as u16)),
            b'~' => Some(Part::number(3)),
            b'?' => Some(Part::number(1)),
            b'*' => Some(Part::BYTE),
            _ => None,
        }
    }
}

// Whether a word goes on with this character.
pub fn is_letter(c: u8) -> bool {
    !matches!(c, b' ' | b'#' | b'%' | b'~' | b'?' | b'*' | b'\n')
}

// The letters of a word from a place of a form on, of which `_` is none.
fn letters_at(form: &[u8], at: usize) -> Word {
    let mut word = NOTHING;
    for i in 0..LETTERS {
        let c = char_at(form, std::num::wrapping_add_usize(at, i));
        if !is_letter(c) || c == b'_' {
            return word;
        }
        word[i] = c;
    }
    word
}

// What a form expects at a place of it.
pub fn word_at(form: &[u8], at: usize) -> Word {
    match Part::of(char_at(form, at)) {
        Some(part) => part.missing,
        None => letters_at(form, at),
    }
}
