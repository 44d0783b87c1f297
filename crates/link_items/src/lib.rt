// An item reader: it keeps the bytes of a link's body and the number of the next item. The body is what stands behind the
// entry's two length bytes; the ranges of its items are counted from its first byte.
#![tactic(auto)]

ghost use Rattle.std.specs.Prelude.{◌≡◌};
ghost use Rattle.link.specs.Answers.{item_read};
ghost use Rattle.link_items.specs.Steps.{stepped_from, stepped, reader_of, moved_on, item_after};

use link::LinkItem;
use wire::verdict::Refusal;

#[derive(Drop)]
pub struct ItemReader<'a> {
    pub body: &'a [u8],
    pub next: usize,
}

// What a step answers, and the number of the item that is next behind it.
#[derive(Drop)]
pub struct Stepped {
    pub item: Result<LinkItem, Refusal>,
    pub next: usize,
}

// The work of a step, on a plain slice and numbers: only an item moves on. `base` is the body's place in the text that
// ranges are counted in.
fn step_at(body: &[u8], base: u16, number: usize) -> Stepped
    ensures { result ≡ stepped_from base body.now number }
{
    let item = link_reader::read_item(body, base, number);
    match item {
        Ok(_) => Stepped {
            item,
            next: number + 1,
        },
        Err(_) => Stepped { item, next: number },
    }
}

// A reader at the body's first item.
pub fn items<'a>(body: &'a [u8]) -> ItemReader<'a>
    ensures { result ≡ reader_of body.entry }
{
    ItemReader { body, next: 0 }
}

// A step: the reader's next item, or the body's refusals 6 to 16, or 21 past the last item. Only an item moves the reader
// on, and the bytes stay the same.
pub fn next<'s, 'a>(r: &'s mut ItemReader<'a>) -> Result<LinkItem, Refusal>
    ensures { (result ≡ item_read 0 r.old.body.now r.old.next) × (r.new ≡ moved_on r.old) }
{
    let step = step_at(r.body, 0, r.next);
    r.next = step.next;
    step.item
}

// One step of a reader whose next item has this number, with plain parameters: whoever calls it holds no reader. The
// answer, and the number that is next behind it.
pub fn step_from(body: &[u8], number: usize) -> Stepped
    ensures { result ≡ stepped body.now number }
{
    let mut reader = ItemReader { body, next: number };
    let item = next(&mut reader);
    Stepped {
        item,
        next: reader.next,
    }
}

// The answer of the step behind `steps` steps from the start. A refused step leaves the reader where it is, so behind it all
// steps answer the same, and none is taken.
pub fn item_after(body: &[u8], steps: usize) -> Result<LinkItem, Refusal>
    ensures { result ≡ item_after body.now steps }
{
    for number in 0..steps {
        let step = step_from(body, number);
        let item = step.item;
        match item {
            Ok(_) => {}
            Err(_) => return item,
        }
    }
    let last = step_from(body, steps);
    last.item
}
