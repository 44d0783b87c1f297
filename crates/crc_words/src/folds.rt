// Folding: a word is added to words behind it, moved up by powers of x that modulo the CRC's polynomial add to the power by which
// it stood higher.
ghost use Rattle.std.specs.Prelude.{◌≡◌, ◌^◌, ◌<◌, [], ◌∷◌};
ghost use Rattle.crc.specs.Shifts.{shifts};
ghost use Rattle.crc_register.specs.Remainder.{remainder};
ghost use Rattle.crc_words.specs.Words.{after};

use crc_register::left_of;

// What is to be added to the next two words.
#[derive(Drop)]
pub(crate) struct NextTwo {
    pub(crate) a: u64,
    pub(crate) b: u64,
}

// The word `w` added to the next two, to which `b` and `c` are to be added already:
// x^128 = x^64 + x^48 + x^41 + x^23 + x^17 + x^16 + x^9 + x^8.
pub(crate) fn fold_two(w: u64, b: u64, c: u64) -> NextTwo
    ensures { after 0 (result.a ∷ result.b ∷ []) ≡ after (remainder w) (b ∷ c ∷ []) }
{
    NextTwo {
        a: b ^ w
            ^ (w >> 16)
            ^ (w >> 23)
            ^ (w >> 41)
            ^ (w >> 47)
            ^ (w >> 48)
            ^ (w >> 55)
            ^ (w >> 56),
        b: c ^ (w << 48) ^ (w << 41) ^ (w << 23) ^ (w << 17) ^ (w << 16) ^ (w << 9) ^ (w << 8),
    }
}

// What is to be added to the five words from `at` on.
#[derive(Drop)]
pub(crate) struct NextFive {
    pub(crate) at: usize,
    pub(crate) a: u64,
    pub(crate) b: u64,
    pub(crate) c: u64,
    pub(crate) d: u64,
    pub(crate) e: u64,
}

// The word `w` before `at` added to the second to fifth behind it, `b` to `e` being to be added to the first four already:
// x^320 = x^175 + x^137 + x^109 + x^20.
pub(crate) fn fold_five(w: u64, at: usize, b: u64, c: u64, d: u64, e: u64) -> NextFive
    ensures { (result.at ≡ at) × (after 0 (result.a ∷ result.b ∷ result.c ∷ result.d ∷ result.e ∷ []) ≡ after (remainder w) (b ∷ c ∷ d ∷ e ∷ 0 ∷ [])) }
{
    NextFive {
        at,
        a: b,
        b: c ^ (w >> 17) ^ (w >> 55),
        c: d ^ (w << 47) ^ (w << 9) ^ (w >> 19),
        d: e ^ (w << 45) ^ (w >> 44),
        e: w << 20,
    }
}

// What the digits of `hi` and `lo` leave, 32 and 64 of them: `hi` is added to `lo`,
// x^64 = x^30 + x^27 + x^24 + x^19 + x^18 + x^16 + x^14 + x^13 + x^10 + x^9 + x^8 + x^7 + x^3 + x^2 + 1.
fn fold_half(hi: u64, lo: u64) -> u32
    requires { hi < 2 ^ 32 }
    ensures { result ≡ after 0 (hi ∷ lo ∷ []) }
{
    let w = lo
        ^ hi
        ^ (hi << 2)
        ^ (hi << 3)
        ^ (hi << 7)
        ^ (hi << 8)
        ^ (hi << 9)
        ^ (hi << 10)
        ^ (hi << 13)
        ^ (hi << 14)
        ^ (hi << 16)
        ^ (hi << 18)
        ^ (hi << 19)
        ^ (hi << 24)
        ^ (hi << 27)
        ^ (hi << 30);
    left_of(w)
}

// The register after the last two words, `v` and `w`: `v` is added to `w` and the 32 clocks behind it,
// x^96 = x^31 + x^30 + x^29 + x^28 + x^25 + x^15 + x^13 + x^11 + x^9 + x^6 + x^5 + x^2 + x.
pub(crate) fn fold_last(v: u64, w: u64) -> u32
    ensures { result ≡ shifts 32 (after (remainder v) (w ∷ [])) }
{
    let hi = (w >> 32)
        ^ (v >> 63)
        ^ (v >> 62)
        ^ (v >> 59)
        ^ (v >> 58)
        ^ (v >> 55)
        ^ (v >> 53)
        ^ (v >> 51)
        ^ (v >> 49)
        ^ (v >> 39)
        ^ (v >> 36)
        ^ (v >> 35)
        ^ (v >> 34)
        ^ (v >> 33);
    let lo = (w << 32)
        ^ (v << 1)
        ^ (v << 2)
        ^ (v << 5)
        ^ (v << 6)
        ^ (v << 9)
        ^ (v << 11)
        ^ (v << 13)
        ^ (v << 15)
        ^ (v << 25)
        ^ (v << 28)
        ^ (v << 29)
        ^ (v << 30)
        ^ (v << 31);
    fold_half(hi, lo)
}
