// How a section ends: the CRC of the bytes before it.
#![tactic(auto)]

ghost use Rattle.std.specs.Prelude.{◌≡◌};
ghost use Rattle.wire.specs.Refusals.{wrong_crc};
ghost use Rattle.wire.specs.Verdict.{bad};
ghost use Rattle.frame.specs.Ending.{crc_verdict, seal_at, seal_end};

use frame::Table;
use wire::verdict::Refusal;

// The CRC stored at `end` against that of the bytes before it: 20 (stored, computed), and 20 (0, 0) where there is no room
// for one, which no reading asks.
pub fn check_crc(s: &[u8], end: usize) -> Result<(), Refusal>
    ensures { result ≡ crc_verdict s.now end }
{
    if s.len() < Table::CRC_LENGTH {
        return wrong(0, 0);
    }
    if s.len() - Table::CRC_LENGTH < end {
        return wrong(0, 0);
    }
    let stored = wire::be32(s[end], s[end + 1], s[end + 2], s[end + 3]);
    let computed = crc_words::crc32(&s[..end]);
    if stored != computed {
        return wrong(stored, computed);
    }
    Ok(())
}

fn wrong(stored: u32, computed: u32) -> Result<(), Refusal>
    ensures { result ≡ bad wrong_crc stored computed }
{
    Err(Refusal {
        number: Refusal::WRONG_CRC,
        first: stored as usize,
        second: computed as usize,
    })
}

// The CRC of the bytes up to `end`, behind them, where there is room for it, and else nothing. The answer is the place
// behind it, or 0.
pub fn seal(b: &mut [u8], end: usize) -> usize
    ensures value { result ≡ seal_end b.old end }
    ensures b_after { b.new ≡ seal_at b.old end }
{
    if b.len() < Table::CRC_LENGTH {
        return 0;
    }
    if b.len() - Table::CRC_LENGTH < end {
        return 0;
    }
    let crc = crc_words::crc32(&b[..end]);
    let bytes = wire::to_be32(crc);
    byte_stores::put_at(b, end, &bytes);
    end + Table::CRC_LENGTH
}
