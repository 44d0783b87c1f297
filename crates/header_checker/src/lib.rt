// What is checked of a section's header before it is written.
#![tactic(auto)]

ghost use Rattle.std.specs.Prelude.{◌≡◌};
ghost use Rattle.section_header.specs.Checks.{check_header};

use field::Field;
use section_header::SectionHeader;
use wire::verdict::{Refusal, first_of};

// What is written has the syntax indicator: 38 (0, 0). Then 22 of ranks 20 to 22.
pub fn check_header(header: SectionHeader) -> Result<(), Refusal>
    ensures { result ≡ check_header header }
{
    if !header.section_syntax_indicator {
        return Err(Refusal {
            number: Refusal::NO_SYNTAX_INDICATOR,
            first: 0,
            second: 0,
        });
    }
    let version = Field::VERSION_NUMBER.check(header.version_number as usize);
    let reserved = Field::VERSION_RESERVED.check(header.reserved_b5 as usize);
    first_of(
        Field::SECTION_RESERVED.check(header.reserved_b1 as usize),
        first_of(version, reserved),
    )
}
