// The related content section: its header, and the numbers that its table states.
#![tactic(auto)]

ghost use Rattle.std.specs.Prelude.{◌≡◌};
ghost use Rattle.rct.specs.Syntax.{head_length, rct, new_rct_header};

use frame::Table;
use section_header::SectionHeader;
use wire::verdict::Refusal;

// The fields before the links, the section's length and the number of links apart. The section header's
// table_id_extension is the service_id.
#[derive(Clone, Copy)]
pub struct RctHeader {
    pub section: SectionHeader,
    pub year_offset: u16,
}

impl RctHeader {
    pub const TABLE_ID: u8 = 0x76;

    // The smallest section_length: a section with no links and an empty loop.
    pub const SHORTEST: u8 = 14;

    // The places of year_offset and of the number of links, and the bytes before the first link.
    pub const YEAR_AT: usize = SectionHeader::FRONT;

    pub const COUNT_AT: usize = RctHeader::YEAR_AT + 2;

    pub const HEAD: usize = RctHeader::COUNT_AT + 1;

    // Another table's section is refused by its id.
    pub const TABLE: Table = Table {
        id: RctHeader::TABLE_ID,
        shortest: RctHeader::SHORTEST,
        other: Refusal::NOT_RCT,
    };

    // The constants as calls, whose contracts tie them to the definitions.
    pub fn table() -> Table
        ensures { result ≡ rct }
    {
        RctHeader::TABLE
    }

    pub fn head() -> usize
        ensures { result ≡ head_length }
    {
        RctHeader::HEAD
    }

    // A header with the syntax indicator set and ones in the reserved bits.
    pub fn new(
        table_id_extension_flag: bool,
        service_id: u16,
        version_number: u16,
        current_next_indicator: bool,
        section_number: u8,
        last_section_number: u8,
        year_offset: u16,
    ) -> RctHeader
        ensures { result ≡ new_rct_header table_id_extension_flag service_id version_number current_next_indicator section_number last_section_number year_offset }
    {
        let section = SectionHeader::new(
            table_id_extension_flag,
            service_id,
            version_number,
            current_next_indicator,
            section_number,
            last_section_number,
        );
        RctHeader {
            section,
            year_offset,
        }
    }
}
