// Opening a section of any table: how it begins, how long it is, and what a reading demands of it besides.
#![tactic(auto)]

ghost use Rattle.std.specs.Prelude.{◌≡◌};
ghost use Rattle.wire.specs.Verdict.{bad, reached};
ghost use Rattle.frame.specs.Reading.{total_of, unindicated, opened};

use frame::{Demands, Table};
use section_header::SectionHeader;
use wire::verdict::Refusal;

// The indicator is demanded, and byte 1 does not have it.
fn unmet_by(demands: Demands, b1: u8) -> bool
    ensures { result ≡ unindicated demands b1 }
{
    if demands.indicator {
        return !SectionHeader::syntax_indicator(b1);
    }
    false
}

fn refused(number: u8, first: usize, second: usize) -> Result<usize, Refusal>
    ensures { result ≡ reached (bad number first second) 0 }
{
    Err(Refusal {
        number,
        first,
        second,
    })
}

// The place behind the section that `s` begins with, if it is a whole one of the table and as the reading demands.
pub fn open(s: &[u8], t: Table, demands: Demands) -> Result<usize, Refusal>
    ensures { result ≡ reached (opened t demands s.now) (total_of s.now) }
{
    let least = t.least();
    if s.len() < least {
        return refused(Refusal::TOO_SHORT, least, s.len());
    }
    let id = s[0];
    if id != t.id {
        return refused(t.other, wire::wide(t.id), wire::wide(id));
    }
    let b1 = s[1];
    if unmet_by(demands, b1) {
        return refused(Refusal::NO_SYNTAX_INDICATOR, wire::wide(b1), 0);
    }
    let total = frame::total(b1, s[2]);
    let length = total - Table::UNCOUNTED;
    if total < least {
        return refused(Refusal::WRONG_LENGTH, length, s.len());
    }
    let lent = s.len();
    if lent < total {
        return refused(Refusal::WRONG_LENGTH, length, lent);
    }
    if demands.most < length {
        return refused(Refusal::SECTION_TOO_LONG, length, demands.most);
    }
    Ok(total)
}
