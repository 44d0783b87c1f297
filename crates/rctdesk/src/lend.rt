// The calls that lend the buffer and the text: buf and text.
use console::Short;
use console::lines::char_at;
use console::print::say;
use script::calls::{SET, call_of};
use script::read::read_short;
use script::scan::{Fault, Scan};
use std::io;

// The most bytes that a buffer or a text has.
pub const MOST: u16 = 8192;

// What the calls lend to.
#[derive(Clone, Copy)]
pub enum Lent {
    Buf,
    Text,
}

const CALLS: [(Short, Lent); 2] = [
    (*b"buf_____________________", Lent::Buf),
    (*b"text____________________", Lent::Text),
];

// What they say.
const COUNT: Short = *b"#_______________________";

const BYTE: Short = *b" %______________________";

// The bytes of a number of them: one over and over, or those in digits from a place of the line on.
#[derive(Clone, Copy)]
enum Bytes<'a> {
    Same(u8),
    Digits(Scan<'a>),
}

// How many bytes a line lends, and what they are.
#[derive(Clone, Copy)]
pub struct Lending<'a> {
    count: u16,
    bytes: Bytes<'a>,
}

// `HEX`, which may be empty.
fn read_hex<'a>(scan: Scan<'a>) -> Result<Lending<'a>, Fault> {
    let mut behind = scan;
    let count = behind.bytes(MOST)?;
    Ok(Lending {
        count,
        bytes: Bytes::Digits(scan),
    })
}

// `N BYTE`, the place being past N.
fn read_filled<'a>(mut scan: Scan<'a>, count: u16) -> Result<Lending<'a>, Fault> {
    let numbers = read_short(&mut scan, BYTE)?;
    scan.end()?;
    scan.counted(count, MOST)?;
    Ok(Lending {
        count,
        bytes: Bytes::Same((numbers[0] % 256) as u8),
    })
}

// A number before a space is no HEX, whether it can be read or not.
fn read_buf<'a>(scan: Scan<'a>) -> Result<Lending<'a>, Fault> {
    let mut behind = scan;
    match read_short(&mut behind, COUNT) {
        Ok(numbers) if behind.is_at(b' ') => read_filled(behind, numbers[0]),
        Err(fault) if char_at(scan.line, fault.at) == b' ' => Err(fault),
        _ => read_hex(scan),
    }
}

// What a call lends that has this behind its name.
pub fn read_lending<'a>(lent: Lent, mut scan: Scan<'a>) -> Result<Lending<'a>, Fault> {
    if scan.is_at(b' ') {
        scan.pass();
    }
    match lent {
        Lent::Buf => read_buf(scan),
        Lent::Text => read_hex(scan),
    }
}

// What a line lends to, if it lends, and the place behind the call's name.
pub fn lending_call<'a>(line: &'a [u8]) -> Option<(Lent, Scan<'a>)> {
    call_of(line, &CALLS)
}

impl<'a> Lending<'a> {
    // Lends to `b`, and answers how much of it is lent now.
    pub fn lend(self, rt: &impl Print, b: &mut [u8]) -> io::Result<usize> {
        say(rt, SET)?;
        let count = self.count as usize;
        if count <= b.len() {
            self.store(&mut b[..count]);
        }
        Ok(count)
    }

    fn store(self, b: &mut [u8]) {
        match self.bytes {
            Bytes::Same(byte) => b.fill(byte),
            Bytes::Digits(scan) => store_digits(scan, b),
        }
    }
}

fn store_digits(scan: Scan<'_>, b: &mut [u8]) {
    for (i, place) in b.iter_mut().enumerate() {
        *place = scan.byte(i);
    }
}
