// Over the items of a link by their place: each answers the place behind what it passed, or the refusal, 12 or 13 against the
// slice's end. Of an item only the length of its text is read.
#![tactic(auto)]

ghost use Rattle.std.specs.Prelude.{◌≡◌, ◌<◌, ◌^◌};
ghost use Rattle.wire.specs.Verdict.{reached};
ghost use Rattle.link.specs.Reading.{item_end, item_place, item_verdict, items_verdict};

use link::LinkItem;
use wire::verdict::Refusal;

// Over the item at `p`, a place from which a slice can be counted on.
fn past(s: &[u8], p: usize) -> Result<usize, Refusal>
    requires { p < 2 ^ 63 }
    ensures { result ≡ reached (item_verdict s.now p) (item_end s.now p) }
{
    let have = s.len();
    let head = p + LinkItem::HEAD;
    if have < head {
        return Err(Refusal {
            number: Refusal::ITEM_CUT,
            first: head,
            second: have,
        });
    }
    let end = head + wire::wide(s[p + LinkItem::LANGUAGE]);
    if have < end {
        return Err(Refusal {
            number: Refusal::TEXT_CUT,
            first: end,
            second: have,
        });
    }
    Ok(end)
}

// Over the item at `at`.
pub fn past_item(s: &[u8], at: u32) -> Result<usize, Refusal>
    ensures { result ≡ reached (item_verdict s.now at) (item_end s.now at) }
{
    past(s, at as usize)
}

// Over `n` items, the first of which is at `at`.
pub fn past_items(s: &[u8], at: u32, n: usize) -> Result<usize, Refusal>
    ensures { result ≡ reached (items_verdict n s.now at) (item_place n s.now at) }
{
    let mut p = at as usize;
    for _ in 0..n {
        p = past(s, p)?;
    }
    Ok(p)
}
