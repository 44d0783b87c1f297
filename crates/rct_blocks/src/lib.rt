// Over an entry by its place, and the descriptor loop by its place: behind the last entry stands the loop.
#![tactic(auto)]

ghost use Rattle.std.specs.Prelude.{◌≡◌, min};
ghost use Rattle.length_field.specs.Lengths.{block_end};
ghost use Rattle.wire.specs.Verdict.{reached};
ghost use Rattle.frame.specs.Syntax.{longest_payload};
ghost use Rattle.rct.specs.Reading.{entry_rows, loop_verdict};
ghost use Rattle.rct_blocks.specs.Ends.{end_of};

use frame::Table;
use length_field::LengthField;
use wire::verdict::Refusal;

// Of a slice that is longer than a payload can be no more is looked at.
fn limited(len: usize) -> usize
    ensures { result ≡ min len longest_payload }
{
    if len < Table::LONGEST_PAYLOAD {
        len
    } else {
        Table::LONGEST_PAYLOAD
    }
}

// Over the entry at a place of a payload, its body not looked at: refusals 4 and 5.
pub fn past_entry_length(payload: &[u8], at: u16) -> Result<usize, Refusal>
    ensures { result ≡ reached (entry_rows payload.now (end_of payload.now) at) (block_end payload.now at) }
{
    let end = limited(payload.len());
    let entry_at = at as usize;
    let start = entry_at + LengthField::BYTES;
    if end < start {
        return Err(Refusal {
            number: Refusal::ENTRY_CUT,
            first: start,
            second: end,
        });
    }
    let field = LengthField::of_bytes(payload[entry_at], payload[entry_at + 1]);
    let next = start + field.length;
    if end < next {
        return Err(Refusal {
            number: Refusal::LINK_TOO_LONG,
            first: field.length,
            second: end - start,
        });
    }
    Ok(next)
}

// The descriptor loop at a place of a payload, with which the payload ends: refusals 17 to 19.
pub fn check_loop(payload: &[u8], at: u16) -> Result<(), Refusal>
    ensures { result ≡ loop_verdict payload.now (end_of payload.now) at }
{
    let loop_end = limited(payload.len());
    let loop_at = at as usize;
    let start = loop_at + LengthField::BYTES;
    if loop_end < start {
        return Err(Refusal {
            number: Refusal::LOOP_CUT,
            first: start,
            second: loop_end,
        });
    }
    let field = LengthField::of_bytes(payload[loop_at], payload[loop_at + 1]);
    field.check_last(
        loop_end - start,
        Refusal::LOOP_TOO_LONG,
        Refusal::SECTION_SLACK,
    )
}
