// What the listings of both tables share: the options, the input, the messages, and what their lines have in common. What
// is promised of this crate is that it traps on nothing and ends; the gate runs it on stored input with the programs that
// stand on it.
#![tactic(auto)]

use console::Short;
use console::input::read_full;
use frame::Table;
use options::Options;
use std::io;
use std::io::Read;

pub mod arguments;
mod hex;
pub mod lines;
mod messages;
pub mod options;

// The most bytes that a section has.
pub const MOST: usize = Table::LONGEST_PAYLOAD + Table::CRC_LENGTH;

// A program that lists: its name, the section that it lists, and what its messages are printed to.
#[derive(Drop)]
pub struct Program<M> {
    pub name: Short,
    pub section: Short,
    pub messages: M,
}

fn take_bytes(
    program: &Program<impl Print>,
    input: &mut impl Read,
    bytes: &mut [u8],
) -> io::Result<Option<usize>> {
    let count = read_full(input, bytes)?;
    let mut behind = [0u8; 1];
    if count == bytes.len() {
        if read_full(input, &mut behind)? > 0 {
            messages::tell_more(program)?;
        }
    }
    Ok(Some(count))
}

// Reads what is to be listed into a buffer of zeros. Where help was asked for it is printed instead.
pub fn take(
    rt: &impl Print,
    program: &Program<impl Print>,
    options: Options,
    input: &mut impl Read,
    bytes: &mut [u8],
) -> io::Result<Option<usize>> {
    if options.is_help {
        messages::put_help(rt, program)?;
        return Ok(None);
    }
    if !options.is_known {
        return Ok(None);
    }
    if options.is_hex {
        return hex::take_hex(program, input, bytes);
    }
    take_bytes(program, input, bytes)
}
