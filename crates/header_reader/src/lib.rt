// Reading bytes 1 to 7 of a section.
#![tactic(auto)]

ghost use Rattle.std.specs.Prelude.{[], ◌∷◌, ◌≡◌};
ghost use Rattle.section_header.specs.Reading.{header_at};

use field::Field;
use section_header::SectionHeader;

// The header of bytes 1 and 3 to 7.
pub fn read_header(b1: u8, b3: u8, b4: u8, b5: u8, b6: u8, b7: u8) -> SectionHeader
    ensures { result ≡ header_at (0 ∷ b1 ∷ 0 ∷ b3 ∷ b4 ∷ b5 ∷ b6 ∷ b7 ∷ []) }
{
    let first = b1 / 16;
    SectionHeader::with_reserved(
        SectionHeader::syntax_indicator(b1),
        first / 4 % 2 == 1,
        Field::SECTION_RESERVED.low(first as u16),
        wire::be16(b3, b4),
        Field::VERSION_RESERVED.low((b5 / 64) as u16),
        Field::VERSION_NUMBER.low((b5 / 2) as u16),
        b5 % 2 == 1,
        b6,
        b7,
    )
}
