// Bringing an index up by what an edit answered: the section is not read again.
#![tactic(auto)]

ghost use Rattle.std.specs.Prelude.{◌≡◌, ◌≤◌};
ghost use Rattle.rct_index.specs.Editing.{turns, moved_place, told_anew};
ghost use Rattle.rct_index_updater.specs.Stages.{Numbers};
ghost use Rattle.rct_index_updater.specs.Bringing.{are_numbers, anew_by, last_of};

use edit_answers::Spliced;
use rct_edit::MOST_LINKS;
use rct_index::{LinkMarks, RctIndex};
use wire::verdict::Refusal;

// How many places 16 bits tell apart.
const TURNS: usize = 65536;

// A place behind bytes whose number changed from `old` to `new`.
fn moved(place: u16, old: usize, new: usize) -> u16
    requires { (old ≤ turns) × (new ≤ turns) }
    ensures { result ≡ moved_place old new place }
{
    (((place as usize) + new + (TURNS - old)) % TURNS) as u16
}

// The index with link `number` of `count` told anew, which stands at `at` of a section that had `old` bytes and has `new`.
fn told_anew(
    index: RctIndex,
    number: usize,
    count: usize,
    at: usize,
    old: usize,
    new: usize,
    marks: LinkMarks,
) -> RctIndex
    requires { Numbers number count at old new }
    ensures { result ≡ told_anew index number count at old new marks }
{
    let sets = index.sets;
    let mut places = index.places;
    places[number] = at as u16;
    for j in number + 1..count {
        places[j] = moved(places[j], old, new);
    }
    RctIndex {
        sets: sets.with(number as u8, marks),
        places,
        descriptors: index.descriptors,
    }
}

// Whether these are numbers of an edit at link `number`: of others nothing is told.
fn are_numbers(number: usize, count: usize, at: usize, old: usize, new: usize) -> bool
    ensures { result ≡ are_numbers number count at old new }
{
    if MOST_LINKS <= number {
        return false;
    }
    if MOST_LINKS < count {
        return false;
    }
    if TURNS <= at {
        return false;
    }
    if TURNS < old {
        return false;
    }
    new <= TURNS
}

// The index as an edit at link `number` left it, by what that edit answered, or as it was where it was refused. Whoever has
// little stack calls the edit and then this: the record of the link is gone by then.
pub fn bring_up(
    index: RctIndex,
    number: usize,
    put: Result<Spliced, Refusal>,
    marks: LinkMarks,
) -> RctIndex
    ensures { result ≡ anew_by index number put marks }
{
    match put {
        Ok(
            Spliced {
                total,
                before,
                count,
                at,
            },
        ) => {
            if are_numbers(number, count, at, before, total) {
                return told_anew(index, number, count, at, before, total, marks);
            }
            index
        }
        Err(_) => index,
    }
}

// The number of a link that was appended: how many there were before.
pub fn last_of(put: Result<Spliced, Refusal>) -> usize
    ensures { result ≡ last_of put }
{
    match put {
        Ok(
            Spliced {
                total: _,
                before: _,
                count,
                at: _,
            },
        ) => count,
        Err(_) => 0,
    }
}
