// The lines of an input, which is read a block at a time.
use std::io;
use std::io::Read;

// The part of the block that is still to be taken: none of it where the input is over.
#[derive(Clone, Copy)]
pub struct Unread {
    pub from: usize,
    pub to: usize,
}

// A line: how many of its characters are kept, one more than there is room for where it is too long.
#[derive(Drop)]
pub struct Line {
    pub kept: usize,
    pub unread: Unread,
}

// The character at a place, and past the last one a newline, which no line has within it.
pub fn char_at(line: &[u8], at: usize) -> u8 {
    if at < line.len() {
        return line[at];
    }
    b'\n'
}

fn fill(input: &mut impl Read, block: &mut [u8]) -> io::Result<Unread> {
    let to = input.read(block)?;
    Ok(Unread { from: 0, to })
}

// A new block where the old one is used up.
fn refill(input: &mut impl Read, block: &mut [u8], unread: Unread) -> io::Result<Unread> {
    if unread.from < unread.to {
        return Ok(unread);
    }
    fill(input, block)
}

impl Unread {
    pub fn nothing() -> Unread {
        Unread { from: 0, to: 0 }
    }

    // The next character; the end of the input ends a line.
    fn next(self, block: &[u8]) -> u8 {
        if self.from < self.to {
            return char_at(block, self.from);
        }
        b'\n'
    }

    fn passed(mut self) -> Unread {
        self.from = std::num::wrapping_add_usize(self.from, 1);
        self
    }

    // Whether the input ends here: a last line that no newline ends counts, an empty one does not.
    fn is_over(self, kept: usize) -> bool {
        kept == 0 && self.to == 0
    }

    // The line that ends here, if one does.
    fn ended(self, kept: usize) -> Option<Line> {
        if self.is_over(kept) {
            return None;
        }
        Some(Line {
            kept,
            unread: self.passed(),
        })
    }
}

fn keep(line: &mut [u8], kept: usize, c: u8) -> usize {
    if kept < line.len() {
        line[kept] = c;
        return kept + 1;
    }
    line.len() + 1
}

// The next line, or none past the last one. A proved loop has to end, and nothing says that a line does: so it counts up to a
// number that no run uses up.
pub fn read_line(
    input: &mut impl Read,
    block: &mut [u8],
    line: &mut [u8],
    unread: Unread,
) -> io::Result<Option<Line>> {
    let mut unread = unread;
    let mut kept: usize = 0;
    for _ in 0..u64::MAX {
        unread = refill(input, block, unread)?;
        let c = unread.next(block);
        if c == b'\n' {
            return Ok(unread.ended(kept));
        }
        kept = keep(line, kept, c);
        unread = unread.passed();
    }
    Ok(unread.ended(0))
}
