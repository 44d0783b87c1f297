// Digits to base 10 and to base 16.
// The kit's function puts them: it is proved which digits it puts, and how many.
pub use io::decimal;

// The most digits that a number has to base 10.
pub const MOST_DIGITS: usize = 20;

// The digits of a number to base 10, from the front.
pub type Digits = [u8; MOST_DIGITS];

// The digit of a value.
pub(crate) fn glyph(d: u8) -> u8 {
    if d < 10 { b'0' + d } else { b'a' + d % 16 - 10 }
}

// The value of a digit of either case, and 16 for what is none.
pub fn digit(c: u8) -> usize {
    match c {
        b'0' => 0,
        b'1' => 1,
        b'2' => 2,
        b'3' => 3,
        b'4' => 4,
        b'5' => 5,
        b'6' => 6,
        b'7' => 7,
        b'8' => 8,
        b'9' => 9,
        b'a' | b'A' => 10,
        b'b' | b'B' => 11,
        b'c' | b'C' => 12,
        b'd' | b'D' => 13,
        b'e' | b'E' => 14,
        b'f' | b'F' => 15,
        _ => 16,
    }
}
