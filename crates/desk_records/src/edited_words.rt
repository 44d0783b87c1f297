// What an edit answers: the total or the refusal, and the lent buffer.
use console::Short;
use console::print::{put_hex, put_number, put_refusal, say};
use std::io;
use wire::verdict::Refusal;

const OK: Short = *b"ok _____________________";

const BUF: Short = *b" buf=___________________";

fn put_total(rt: &impl Print, edited: Result<usize, Refusal>) -> io::Result<()> {
    match edited {
        Err(refusal) => put_refusal(rt, refusal),
        Ok(total) => {
            say(rt, OK)?;
            put_number(rt, total)
        }
    }
}

// What an edit answered, and the whole lent buffer as it left it.
pub fn put_edited(rt: &impl Print, b: &[u8], edited: Result<usize, Refusal>) -> io::Result<()> {
    put_total(rt, edited)?;
    say(rt, BUF)?;
    put_hex(rt, b)
}
