// Writing bytes 1 to 7 of a section.
#![tactic(auto)]

ghost use Rattle.std.specs.Prelude.{◌≡◌, ◌%◌, ◌+◌};
ghost use Rattle.length_field.specs.Lengths.{longest};
ghost use Rattle.section_header.specs.Syntax.{version_byte, header_bytes};
ghost use Rattle.section_header.specs.Checks.{narrowed};

use field::Field;
use length_field::LengthField;
use section_header::SectionHeader;

// Bytes 1 to 7 with a section_length, of which the lowest twelve bits are taken, as the lowest of each narrow field are.
pub fn header_bytes(header: SectionHeader, section_length: usize) -> [u8; 7]
    ensures { result ≡ header_bytes (narrowed header) (section_length % (longest + 1)) }
{
    let syntax = wire::flag(header.section_syntax_indicator);
    let private = wire::flag(header.private_indicator);
    let reserved = Field::SECTION_RESERVED.low(header.reserved_b1) as u8;
    let field = LengthField {
        beside: syntax * 8 + private * 4 + reserved,
        length: section_length,
    };
    let length = field.to_bytes();
    let extension = wire::to_be16(header.table_id_extension);
    [
        length[0],
        length[1],
        extension[0],
        extension[1],
        version_byte(header),
        header.section_number,
        header.last_section_number,
    ]
}

fn version_byte(header: SectionHeader) -> u8
    ensures { result ≡ version_byte (narrowed header) }
{
    let reserved = Field::VERSION_RESERVED.low(header.reserved_b5) as u8;
    let version = Field::VERSION_NUMBER.low(header.version_number) as u8;
    reserved * 64 + version * 2 + wire::flag(header.current_next_indicator)
}
