// The CRC of a section, ISO/IEC 13818-1, Annex A, by words of eight bytes.
// A word is a polynomial. Instead of going through the register, it is added to words further on, at places where modulo the CRC's
// polynomial it counts the same; only what is left of the last two goes through. Up to eight bytes go through one by one.
#![tactic(auto)]

ghost use Rattle.std.specs.Prelude.{◌≡◌, ◌+◌, ◌-◌, ◌%◌, ◌≤◌, ◌<◌, length};
ghost use Rattle.wire.specs.Numbers.{be32};
ghost use Rattle.crc.specs.Crc.{crc_of};
ghost use Rattle.crc_words.specs.Words.{be64, due_word, due_five};

use crate::folds::{NextFive, fold_five, fold_last, fold_two};
use crc_register::HALF;

mod folds;

// The register's start, as what is added to a message's first eight bytes.
const FIRST: u64 = (crc_register::START as u64) << 32;

// The 32-bit number at `i`.
fn half_at(s: &[u8], i: usize) -> u32
    requires { i + 4 ≤ length s.now }
    ensures { result ≡ be32 s.now i }
{
    wire::be32(s[i], s[i + 1], s[i + 2], s[i + 3])
}

// The word at `i`.
fn word_at(s: &[u8], i: usize) -> u64
    requires { i + 8 ≤ length s.now }
    ensures { result ≡ be64 s.now i }
{
    let hi = half_at(s, i) as u64;
    let lo = half_at(s, i + 4) as u64;
    hi * HALF + lo
}

// How far a message was read: `word` is the last word that was, `next` is to be added to the next, which is at `at`.
#[derive(Drop)]
struct Reached {
    word: u64,
    next: u64,
    at: usize,
}

// The first one to eight bytes of `s`, so many that whole words follow, as a word filled up with zeros in front. The register's
// start is added to the first four bytes, of which some may be the next word's.
fn begin(s: &[u8]) -> Reached
    requires { 8 < length s.now }
    ensures at_bound { (result.at ≤ 8) × ((length s.now - result.at) % 8 ≡ 0) }
    ensures result_value { due_word s.now result ≡ crc_of s.now }
{
    let more = (s.len() - 1) % 8;
    Reached {
        word: (word_at(s, 0) ^ FIRST) >> (56 - 8 * more),
        next: (FIRST << 8) << (8 * more),
        at: more + 1,
    }
}

// The last word folded onto the next two, and the next one read.
fn read_on(s: &[u8], m: Reached) -> Reached
    requires { m.at + 16 ≤ length s.now }
    ensures { (result.at ≡ m.at + 8) × (due_word s.now result ≡ due_word s.now m) }
{
    let n = fold_two(m.word, m.next, 0);
    Reached {
        word: word_at(s, m.at) ^ n.a,
        next: n.b,
        at: m.at + 8,
    }
}

// The CRC that is due where one word and more follow: each is folded onto the next two.
fn by_two(s: &[u8], from: Reached) -> u32
    requires { (from.at + 8 ≤ length s.now) × ((length s.now - from.at) % 8 ≡ 0) }
    ensures { result ≡ due_word s.now from }
{
    let end = s.len() - 8;
    let mut m = from;
    // The place is a part of the state that is folded on.
    while m.at < end {
        m = read_on(s, m);
    }
    fold_last(m.word, word_at(s, m.at) ^ m.next)
}

// The next word read, and folded onto the five behind it.
fn fold_next(s: &[u8], n: NextFive) -> NextFive
    requires { n.at + 48 ≤ length s.now }
    ensures { (result.at ≡ n.at + 8) × (due_five s.now result ≡ due_five s.now n) }
{
    fold_five(word_at(s, n.at) ^ n.a, n.at + 8, n.b, n.c, n.d, n.e)
}

// The last word folded onto the next five, and where an odd number of words stands before the last five, the first of these too.
fn begin_five(s: &[u8], m: Reached) -> NextFive
    requires { (m.at + 40 ≤ length s.now) × ((length s.now - m.at) % 8 ≡ 0) }
    ensures at_in_bounds { (result.at + 40 ≤ length s.now) × ((length s.now - result.at) % 16 ≡ 8) }
    ensures result_value { due_five s.now result ≡ due_word s.now m }
{
    let n = fold_five(m.word, m.at, m.next, 0, 0, 0);
    if (s.len() - m.at) % 16 == 8 {
        return n;
    }
    fold_next(s, n)
}

// The CRC that is due at the last five words.
fn last_five(s: &[u8], n: NextFive) -> u32
    requires { n.at + 40 ≡ length s.now }
    ensures { result ≡ due_five s.now n }
{
    let at = n.at;
    let p = fold_two(word_at(s, at) ^ n.a, n.b, n.c);
    let q = fold_two(word_at(s, at + 8) ^ p.a, p.b, n.d);
    let t = fold_two(word_at(s, at + 16) ^ q.a, q.b, n.e);
    fold_last(word_at(s, at + 24) ^ t.a, word_at(s, at + 32) ^ t.b)
}

// The CRC that is due where five words and more follow: each before the last five is folded onto the next five, two a turn.
fn by_five(s: &[u8], m: Reached) -> u32
    requires { (m.at + 40 ≤ length s.now) × ((length s.now - m.at) % 8 ≡ 0) }
    ensures { result ≡ due_word s.now m }
{
    let end = s.len() - 40;
    let mut n = begin_five(s, m);
    // The place is a part of the state that is folded on.
    while n.at < end {
        n = fold_next(s, fold_next(s, n));
    }
    last_five(s, n)
}

// The CRC of `s`.
pub fn crc32(s: &[u8]) -> u32
    ensures { result ≡ crc_of s.now }
{
    if s.len() <= 8 {
        return crc_register::by_bytes(s);
    }
    let m = begin(s);
    if s.len() <= 40 {
        return by_two(s, m);
    }
    by_five(s, m)
}
