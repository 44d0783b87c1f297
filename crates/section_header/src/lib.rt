// Bytes 1 to 7 of a section (ISO/IEC 13818-1, 2.4.4.10), section_length apart: the same in every table.
#![tactic(auto)]

ghost use Rattle.std.specs.Prelude.{◌≡◌};
ghost use Rattle.section_header.specs.Syntax.{header_of, new_header};
ghost use Rattle.section_header.specs.Reading.{syntax_indicator, no_header};

use field::Field;

// `table_id_extension` is what the table makes of it: the service_id of a related content section.
#[derive(Clone, Copy)]
pub struct SectionHeader {
    pub section_syntax_indicator: bool,
    pub private_indicator: bool,
    pub reserved_b1: u16,
    pub table_id_extension: u16,
    pub reserved_b5: u16,
    pub version_number: u16,
    pub current_next_indicator: bool,
    pub section_number: u8,
    pub last_section_number: u8,
}

impl SectionHeader {
    // The bytes from table_id to last_section_number.
    pub const FRONT: usize = 8;

    // A header of all its fields, reserved bits too: what a reader makes.
    pub fn with_reserved(
        section_syntax_indicator: bool,
        private_indicator: bool,
        reserved_b1: u16,
        table_id_extension: u16,
        reserved_b5: u16,
        version_number: u16,
        current_next_indicator: bool,
        section_number: u8,
        last_section_number: u8,
    ) -> SectionHeader
        ensures { result ≡ header_of section_syntax_indicator private_indicator reserved_b1 table_id_extension reserved_b5 version_number current_next_indicator section_number last_section_number }
    {
        SectionHeader {
            section_syntax_indicator,
            private_indicator,
            reserved_b1,
            table_id_extension,
            reserved_b5,
            version_number,
            current_next_indicator,
            section_number,
            last_section_number,
        }
    }

    // A header with the syntax indicator set and ones in the reserved bits.
    pub fn new(
        private_indicator: bool,
        table_id_extension: u16,
        version_number: u16,
        current_next_indicator: bool,
        section_number: u8,
        last_section_number: u8,
    ) -> SectionHeader
        ensures { result ≡ new_header private_indicator table_id_extension version_number current_next_indicator section_number last_section_number }
    {
        SectionHeader::with_reserved(
            true,
            private_indicator,
            Field::SECTION_RESERVED.widest as u16,
            table_id_extension,
            Field::VERSION_RESERVED.widest as u16,
            version_number,
            current_next_indicator,
            section_number,
            last_section_number,
        )
    }

    // The header of nothing: what stands beside a refusal.
    pub fn none() -> SectionHeader
        ensures { result ≡ no_header }
    {
        SectionHeader::with_reserved(false, false, 0, 0, 0, 0, false, 0, 0)
    }

    // section_syntax_indicator, of byte 1.
    pub fn syntax_indicator(b1: u8) -> bool
        ensures { result ≡ syntax_indicator b1 }
    {
        b1 / 128 == 1
    }
}
