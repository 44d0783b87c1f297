// The register of ISO/IEC 13818-1, Annex A, byte by byte: the CRC of a message so, and what a word of 64 digits leaves on division
// by the CRC's polynomial.
#![tactic(auto)]

ghost use Rattle.std.specs.Prelude.{◌≡◌};
ghost use Rattle.crc.specs.Crc.{bits8, clocked, crc_of};
ghost use Rattle.crc.specs.Shifts.{shifts};
ghost use Rattle.crc_register.specs.Remainder.{remainder};

// The polynomial without its highest term, and the register before the first bit.
const POLY: u32 = 0x04C1_1DB7;

pub const START: u32 = 0xFFFF_FFFF;

// One more than the widest half of a word.
pub const HALF: u64 = 0x1_0000_0000;

// The register `r` after a byte at the input: eight clocks.
// The loop has the shape that the compiler turns into one look-up in read-only memory.
fn clock_byte(r: u32, x: u8) -> u32
    ensures { result ≡ clocked r (bits8 x) }
{
    let mut q = r ^ ((x as u32) * 0x100_0000);
    for _ in 0..8u32 {
        q = if q >= 0x8000_0000 {
            (q << 1) ^ POLY
        } else {
            q << 1
        };
    }
    q
}

// The CRC of `s`, byte by byte.
pub fn by_bytes(s: &[u8]) -> u32
    ensures { result ≡ crc_of s.now }
{
    let mut r = START;
    for i in 0..s.len() {
        r = clock_byte(r, s[i]);
    }
    r
}

// The register `r` after 32 clocks with 0 at the input.
fn shift_32(r: u32) -> u32
    ensures { result ≡ shifts 32 r }
{
    clock_byte(clock_byte(clock_byte(clock_byte(r, 0), 0), 0), 0)
}

// What the word `w` leaves: its high half moved up by 32 places, and its low half.
pub fn left_of(w: u64) -> u32
    ensures { result ≡ remainder w }
{
    let hi = (w / HALF) as u32;
    let lo = (w % HALF) as u32;
    shift_32(hi) ^ lo
}
