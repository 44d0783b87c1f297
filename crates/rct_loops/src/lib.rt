// The plain and the checked reading of a related content section, as walks to the place of its descriptor loop.
#![tactic(auto)]

ghost use Rattle.std.specs.Prelude.{◌≡◌};
ghost use Rattle.rct.specs.Reading.{plain, checked};
ghost use Rattle.rct_walker.specs.Places.{loop_found};

use frame::Demands;
use rct_walker::{RctLoop, walk};
use wire::verdict::Refusal;

// The place of the descriptor loop, by the plain reading. The answer is taken apart and made anew: handed on as it came, its
// words would be copied in pairs right behind their stores, for which the processor waits.
pub fn plain_loop(s: &[u8]) -> Result<RctLoop, Refusal>
    ensures { result ≡ loop_found (plain s.now) s.now }
{
    let found = walk::read_loop(s, Demands::plain())?;
    Ok(RctLoop {
        total: found.total,
        count: found.count,
        loop_at: found.loop_at,
    })
}

// The same by the checked reading.
pub fn checked_loop(s: &[u8]) -> Result<RctLoop, Refusal>
    ensures { result ≡ loop_found (checked s.now) s.now }
{
    let found = walk::read_loop(s, Demands::checked())?;
    frame_ending::check_crc(s, frame::payload_end(found.total))?;
    Ok(RctLoop {
        total: found.total,
        count: found.count,
        loop_at: found.loop_at,
    })
}
