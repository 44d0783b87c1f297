// The resolution notification section: its header, the numbers that its table states, and the records of its parts.
#![tactic(auto)]

ghost use Rattle.std.specs.Prelude.{◌≡◌};
ghost use Rattle.rnt.specs.Syntax.{common_place, rnt};

use frame::Table;
use section_header::SectionHeader;
use spans::Span;
use wire::verdict::Refusal;

// The fields before the common descriptors, the section's length apart. The section header's table_id_extension is the
// context_id.
#[derive(Clone, Copy)]
pub struct RntHeader {
    pub section: SectionHeader,
    pub context_id_type: u8,
}

impl RntHeader {
    pub const TABLE_ID: u8 = 0x79;

    // The smallest section_length: a section with no common descriptors and no providers.
    pub const SHORTEST: u8 = 12;

    // The places of context_id_type and of the common descriptors' length.
    pub const TYPE_AT: usize = SectionHeader::FRONT;

    pub const COMMON_AT: usize = RntHeader::TYPE_AT + 1;

    // Another table's section is refused by its id.
    pub const TABLE: Table = Table {
        id: RntHeader::TABLE_ID,
        shortest: RntHeader::SHORTEST,
        other: Refusal::NOT_RNT,
    };

    // The constants as calls, whose contracts tie them to the definitions.
    pub fn table() -> Table
        ensures { result ≡ rnt }
    {
        RntHeader::TABLE
    }

    pub fn common_at() -> usize
        ensures { result ≡ common_place }
    {
        RntHeader::COMMON_AT
    }
}

// A provider: the bits before its two lengths, where its name and its descriptors stand, and between which places its
// authorities do. Places are counted from the section's first byte.
#[repr(C)]
#[derive(Clone, Copy)]
pub struct ResolutionProvider {
    pub reserved_info_length: u16,
    pub name: Span,
    pub reserved_descriptors_length: u16,
    pub descriptors: Span,
    pub authorities_at: u16,
    pub end: u16,
}

// An authority: where its name and its descriptors stand, and the four bits before the length of these.
#[repr(C)]
#[derive(Drop)]
pub struct CridAuthority {
    pub name: Span,
    pub reserved: u16,
    pub crid_authority_policy: u16,
    pub descriptors: Span,
}

impl CridAuthority {
    // The policies that two bits tell: of the four bits before the length the last two are one.
    pub const POLICIES: u8 = 4;
}
