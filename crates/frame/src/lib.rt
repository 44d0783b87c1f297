// What the sections of every table share: how they begin, how long they are, and how they end.
#![tactic(auto)]

ghost use Rattle.std.specs.Prelude.{◌≡◌, ◌-◌};
ghost use Rattle.frame.specs.Syntax.{crc_length, least};
ghost use Rattle.frame.specs.Reading.{total_in, plain_demands, checked_demands};

use length_field::LengthField;

// A table: its id, its smallest section_length, and the number of the refusal of another id.
#[derive(Clone, Copy)]
pub struct Table {
    pub id: u8,
    pub shortest: u8,
    pub other: u8,
}

impl Table {
    // The bytes up to the end of section_length, which it does not count, and those of the CRC, which it does.
    pub const UNCOUNTED: usize = 3;

    pub const CRC_LENGTH: usize = 4;

    // The most bytes that stand before a CRC.
    pub const LONGEST_PAYLOAD: usize = Table::UNCOUNTED + LengthField::LONGEST - Table::CRC_LENGTH;

    // The bytes of the smallest section.
    pub fn least(self) -> usize
        ensures { result ≡ least self }
    {
        Table::UNCOUNTED + wire::wide(self.shortest)
    }
}

// What a reading demands of a section besides its syntax: section_syntax_indicator set or not looked at, and the greatest
// section_length that it takes.
#[derive(Clone, Copy)]
pub struct Demands {
    pub indicator: bool,
    pub most: usize,
}

impl Demands {
    // The greatest section_length that is written, and that a checked reading takes; the field would hold more.
    pub const LIMIT: usize = 4093;

    // The plain reading takes either indicator, and every length that the field holds.
    pub fn plain() -> Demands
        ensures { result ≡ plain_demands }
    {
        Demands {
            indicator: false,
            most: LengthField::LONGEST,
        }
    }

    // The checked reading takes no more than is written: the indicator is set, and the length is within the limit.
    pub fn checked() -> Demands
        ensures { result ≡ checked_demands }
    {
        Demands {
            indicator: true,
            most: Demands::LIMIT,
        }
    }
}

// The bytes of a whole section, of its bytes 1 and 2.
pub fn total(hi: u8, lo: u8) -> usize
    ensures { result ≡ total_in hi lo }
{
    let field = LengthField::of_bytes(hi, lo);
    Table::UNCOUNTED + field.length
}

// Where the CRC of a section of so many bytes begins.
pub fn payload_end(total: usize) -> usize
    ensures { result ≡ total - crc_length }
{
    if total < Table::CRC_LENGTH {
        return 0;
    }
    total - Table::CRC_LENGTH
}
