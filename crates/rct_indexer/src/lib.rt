// Building an index of a section, in one pass over it.
#![tactic(auto)]

ghost use Rattle.std.specs.Prelude.{◌≡◌, ◌≤◌, length};
ghost use Rattle.descriptors.specs.Reading.{counted};
ghost use Rattle.frame.specs.Syntax.{longest_payload};
ghost use Rattle.rct_index.specs.Building.{built, building};
ghost use Rattle.rct_indexer.specs.Stages.{tail_rows, tail_count, payload_rows, payload_index};

use frame::Demands;
use length_field::LengthField;
use rct::RctHeader;
use rct_blocks::check_loop;
use rct_edit::MOST_LINKS;
use rct_entries::read_entry;
use rct_index::{LinkMarks, LinkSets, RctIndex};
use wire::verdict::Refusal;

// The index of the section that `s` begins with, by the plain reading; then 39 if a descriptor of its loop is cut off.
pub fn build_index(s: &[u8]) -> Result<RctIndex, Refusal>
    ensures { result ≡ building s.now }
{
    let total = frame_opening::open(s, RctHeader::table(), Demands::plain())?;
    let end = frame::payload_end(total);
    index_payload(&s[..end], s[RctHeader::COUNT_AT])
}

// The loop at a place of a payload: refusals 17 to 19, then its descriptors.
fn count_loop(payload: &[u8], at: u16) -> Result<usize, Refusal>
    ensures { result ≡ counted (tail_rows payload.now at) (tail_count payload.now at) }
{
    check_loop(payload, at)?;
    let start = (at as usize) + LengthField::BYTES;
    descriptors::count_descriptors(payload, start)
}

// The index of a payload of so many links: an entry is read without its items, told of, and passed.
fn index_payload(payload: &[u8], links: u8) -> Result<RctIndex, Refusal>
    requires { length payload.now ≤ longest_payload }
    ensures { result ≡ built (payload_rows links payload.now) (payload_index links payload.now) }
{
    let count = wire::wide(links);
    let mut sets = LinkSets::none();
    let mut places = [0u16; MOST_LINKS];
    let mut at = RctHeader::HEAD as u16;
    for k in 0..count {
        let entry = read_entry(payload, at)?;
        sets = sets.with(k as u8, LinkMarks::of(entry.fields));
        places[k] = at;
        at = entry.next;
    }
    let n = count_loop(payload, at)?;
    Ok(RctIndex {
        sets,
        places,
        descriptors: n as u16,
    })
}
