// A link that is to be written: what its checks answer, and what checker and writer share.
#![tactic(auto)]

ghost use Rattle.std.specs.Prelude.{◌≡◌, min, ◌≤◌};
ghost use Rattle.field.specs.Fields.{number_items};
ghost use Rattle.link_draft.specs.Checks.{uri_here, locator_here, check_range};

use field::Field;
use link::Range;
use locator::DvbBinaryLocator;
use wire::verdict::Refusal;

// The verdict of the checks, and the length of the body that the record says, whatever the verdict.
#[derive(Drop)]
pub struct LinkChecked {
    pub verdict: Result<(), Refusal>,
    pub length: usize,
}

// How many items a record has whose count may be too large: a record holds no more than its array. The bound follows from
// the first fact; it is said besides because a loop over the items needs it at each index.
pub fn held(count: usize) -> usize
    ensures { (result ≡ min count number_items.widest) × (result ≤ number_items.widest) }
{
    if Field::NUMBER_ITEMS.widest < count {
        Field::NUMBER_ITEMS.widest
    } else {
        count
    }
}

// Whether a record has a URI, and whether it has a locator, whatever its type is.
pub fn uri_here(uri: Option<Range>) -> bool
    ensures { result ≡ uri_here uri }
{
    uri.is_some()
}

pub fn locator_here(locator: Option<DvbBinaryLocator>) -> bool
    ensures { result ≡ locator_here locator }
{
    locator.is_some()
}

// 25 of one range of a text that has `have` bytes: two numbers of 32 bits, so their sum is exact.
pub fn check_range(have: usize, range: Range) -> Result<(), Refusal>
    ensures { result ≡ check_range have range }
{
    let start = range.start as usize;
    let length = range.length as usize;
    if have < start + length {
        return Err(Refusal {
            number: Refusal::PAST_TEXT,
            first: start,
            second: length,
        });
    }
    Ok(())
}
