// How many members a set of the numbers 0 to 255 has.
#![tactic(auto)]

ghost use Rattle.std.specs.Prelude.{◌≡◌, ◌≤◌};
ghost use Rattle.std.specs.Int.Count.{ones};
ghost use Rattle.number_set.specs.Members.{width, members, trues};

use number_set::NumberSet;

// The ones of a word.
fn ones_of(word: u64) -> usize
    ensures { (result ≡ ones word) × (result ≤ width) }
{
    u64::count_ones(word) as usize
}

// How many members `set` has: the ones in its words.
pub fn count(set: NumberSet) -> usize
    ensures { result ≡ trues (members set) }
{
    ones_of(set.words[0]) + ones_of(set.words[1]) + ones_of(set.words[2]) + ones_of(set.words[3])
}
