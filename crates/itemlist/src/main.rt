// Steps through the items of the link body on standard input: a line for each item, and the refusal that ends them.
#![tactic(auto)]

use console::Short;
use console::input::read_full;
use console::print::{end_line, put_number, put_refusal, say};
use length_field::LengthField;
use link::{LangCode, LinkInfo, LinkItem};
use std::io;

// The most bytes that a link body has: the widest link_info_length.
const MOST: usize = LengthField::LONGEST;

const ITEM: Short = *b"item ___________________";

const LANGUAGE: Short = *b" language ______________";

const START: Short = *b" start _________________";

const LENGTH: Short = *b" length ________________";

// A language code as it is, whatever its bytes are.
fn put_language(rt: &impl Print, code: LangCode) -> io::Result<()> {
    rt.write_all(&[code.first, code.second, code.third])
}

fn put_item(rt: &impl Print, number: usize, item: LinkItem) -> io::Result<()> {
    let text = item.promotional_text;
    say(rt, ITEM)?;
    put_number(rt, number)?;
    say(rt, LANGUAGE)?;
    put_language(rt, item.language_code)?;
    say(rt, START)?;
    put_number(rt, text.start as usize)?;
    say(rt, LENGTH)?;
    put_number(rt, text.length as usize)?;
    end_line(rt)
}

// A link has at most `MOST_ITEMS` items, so that one step more is refused.
fn list(rt: &impl Print, body: &[u8]) -> io::Result<()> {
    let mut place: usize = 0;
    for _ in 0..LinkInfo::MOST_ITEMS + 1 {
        let step = link_items::step_from(body, place);
        let item = step.item;
        match item {
            Ok(i) => put_item(rt, place, i)?,
            Err(r) => {
                put_refusal(rt, r)?;
                return end_line(rt);
            }
        }
        place = step.next;
    }
    Ok(())
}

fn main(rt: HostRuntime) -> io::Result<()> {
    let mut input = [0u8; MOST];
    let count = read_full(&mut rt.stdin(), &mut input)?;
    list(&rt, &input[..count])
}
