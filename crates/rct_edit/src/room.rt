// The room for a new section.
ghost use Rattle.std.specs.Prelude.{◌≡◌};
ghost use Rattle.rct_edit.specs.Edit.{room_rows};

use frame::{Demands, Table};
use wire::verdict::Refusal;

// 28 and 29 of a section_length, in a buffer of `room` bytes.
pub fn check_room(room: usize, section_length: usize) -> Result<(), Refusal>
    ensures { result ≡ room_rows room section_length }
{
    if Demands::LIMIT < section_length {
        return Err(Refusal {
            number: Refusal::SECTION_TOO_LONG,
            first: section_length,
            second: Demands::LIMIT,
        });
    }
    let total = Table::UNCOUNTED + section_length;
    if room < total {
        return Err(Refusal {
            number: Refusal::NO_ROOM,
            first: total,
            second: room,
        });
    }
    Ok(())
}
