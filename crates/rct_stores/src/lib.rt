// What an edit stores in a section in a lent buffer besides the link: the head's numbers, and filler behind a new end.
#![tactic(auto)]

ghost use Rattle.std.specs.Prelude.{◌≡◌};
ghost use Rattle.rct_stores.specs.Stores.{numbers_put, fill_put};

use length_field::LengthField;
use rct::RctHeader;

// section_length anew, of which the lowest twelve bits are taken, the four bits beside it kept, and the number of links. Where
// `b` ends before the number of links, nothing is stored.
pub fn put_numbers(b: &mut [u8], section_length: usize, count: u8)
    ensures { b.new ≡ numbers_put b.old section_length count }
{
    if b.len() <= RctHeader::COUNT_AT {
        return;
    }
    let old = LengthField::of_bytes(b[1], b[2]);
    let field = LengthField {
        beside: old.beside,
        length: section_length,
    };
    let bytes = field.to_bytes();
    b[1] = bytes[0];
    b[2] = bytes[1];
    b[RctHeader::COUNT_AT] = count;
}

// The bytes from a new end up to the old one become filler. Where the old end lies past that of `b`, nothing is stored.
pub fn fill(b: &mut [u8], from: usize, to: usize)
    ensures { b.new ≡ fill_put b.old from to }
{
    if b.len() < to {
        return;
    }
    if to < from {
        return;
    }
    b[from..to].fill(rct_edit::filler());
}
