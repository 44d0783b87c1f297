// A set of the numbers 0 to 255 by value, one bit each: number k is bit k % 64 of word k / 64.
#![tactic(auto)]

ghost use Rattle.std.specs.Prelude.{◌≡◌, true, false, ◌/◌, ◌%◌, eqb, set};
ghost use Rattle.wire.specs.Choice.{pick};
ghost use Rattle.number_set.specs.Members.{width, members, is_member, of_members, no_members};
ghost use Rattle.number_set.specs.Stages.{turn};

// The bits of a word.
const WIDTH: usize = 64;

// The words of a set.
const WORDS: usize = 4;

// How many numbers can be members: those below this one.
const SIZE: usize = 256;

#[repr(C)]
#[derive(Clone, Copy)]
pub struct NumberSet {
    pub words: [u64; WORDS],
}

// A word with the bit of k turned on, or off, and all else as it was.
fn turned(word: u64, k: usize, member: bool) -> u64
    ensures { result ≡ turn word (k % width) member }
{
    let one = 1u64 << (k % WIDTH);
    let rest = word - (word & one);
    if member { rest + one } else { rest }
}

// What word i of a set is once k is put in, or taken out.
fn told(old: u64, i: usize, k: usize, member: bool) -> u64
    ensures { result ≡ pick (eqb (k / width) i) (turn old (k % width) member) old }
{
    if k / WIDTH == i {
        turned(old, k, member)
    } else {
        old
    }
}

impl NumberSet {
    // The set without members.
    pub fn none() -> NumberSet
        ensures { result ≡ of_members no_members }
    {
        NumberSet { words: [0; WORDS] }
    }

    // Whether k is a member. Of a number past the last no word is read.
    pub fn has(self, k: usize) -> bool
        ensures { result ≡ is_member self k }
    {
        if k >= SIZE {
            return false;
        }
        let word = self.words[k / WIDTH];
        (word >> (k % WIDTH)) % 2 == 1
    }

    // The set with k put in, or taken out, and all else as it was. Each word is told by itself, since a store into a
    // word that is only known at run time would need the set in memory.
    pub fn with(self, k: u8, member: bool) -> NumberSet
        ensures { result ≡ of_members (set (members self) k member) }
    {
        let n = wire::wide(k);
        let a = told(self.words[0], 0, n, member);
        let b = told(self.words[1], 1, n, member);
        let c = told(self.words[2], 2, n, member);
        let d = told(self.words[3], 3, n, member);
        NumberSet {
            words: [a, b, c, d],
        }
    }

    // The set whose one member is k.
    pub fn only(k: u8) -> NumberSet
        ensures { result ≡ of_members (set no_members k true) }
    {
        NumberSet::none().with(k, true)
    }
}
