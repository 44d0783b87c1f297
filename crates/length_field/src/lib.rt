// A 12-bit length with the four bits beside it: one thing, two bytes.
#![tactic(auto)]

ghost use Rattle.std.specs.Prelude.{◌≡◌, ◌%◌, ◌+◌};
ghost use Rattle.length_field.specs.Lengths.{length_field, length_bytes, longest, widest_beside, long_row, last_rows};

use wire::verdict::Refusal;

#[derive(Clone, Copy)]
pub struct LengthField {
    pub beside: u8,
    pub length: usize,
}

impl LengthField {
    // The bytes that the field takes.
    pub const BYTES: usize = 2;

    // The widest length that 12 bits hold, and the widest number that the four bits beside it hold.
    pub const LONGEST: usize = 4095;

    pub const WIDEST_BESIDE: usize = 15;

    // The field that two bytes are.
    pub fn of_bytes(hi: u8, lo: u8) -> LengthField
        ensures { result ≡ length_field hi lo }
    {
        let both = wire::be16(hi, lo) as usize;
        LengthField {
            beside: (both / (LengthField::LONGEST + 1)) as u8,
            length: both % (LengthField::LONGEST + 1),
        }
    }

    // The two bytes of the field, of whose numbers the lowest four and twelve bits are taken.
    pub fn to_bytes(self) -> [u8; 2]
        ensures { result ≡ length_bytes (self.beside % (widest_beside + 1)) (self.length % (longest + 1)) }
    {
        let length = self.length % (LengthField::LONGEST + 1);
        let beside = wire::wide(self.beside) % (LengthField::WIDEST_BESIDE + 1);
        [(beside * 16 + length / 256) as u8, (length % 256) as u8]
    }

    // The declared length against the bytes that are left for it: `long` (declared, available) if there are too few.
    pub fn check_left(self, left: usize, long: u8) -> Result<(), Refusal>
        ensures { result ≡ long_row long self.length left }
    {
        if left < self.length {
            return Err(Refusal {
                number: long,
                first: self.length,
                second: left,
            });
        }
        Ok(())
    }

    // The same where nothing may follow: then `slack` (slack, 0) if there are too many.
    pub fn check_last(self, left: usize, long: u8, slack: u8) -> Result<(), Refusal>
        ensures { result ≡ last_rows long slack self.length left }
    {
        if self.length < left {
            return Err(Refusal {
                number: slack,
                first: left - self.length,
                second: 0,
            });
        }
        self.check_left(left, long)
    }
}
