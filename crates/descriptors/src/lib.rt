// A descriptor loop (ISO/IEC 13818-1, 2.6): how many descriptors it has, or where one of them is cut off.
#![tactic(auto)]

ghost use Rattle.std.specs.Prelude.{◌≡◌, length, drop};
ghost use Rattle.descriptors.specs.Reading.{size_of, descriptors_of, cut_verdict, counted};
ghost use Rattle.descriptors.specs.Stages.{front_of};

use wire::verdict::Refusal;

// The bytes before a descriptor's body: its tag and its length.
const HEAD: usize = 2;

// How many descriptors the recursion counts at a time: a section has room for thousands, and each is a level of the stack.
const AT_A_TIME: usize = 32;

// How many descriptors were counted, and how many bytes are left where the counting stopped.
#[derive(Drop)]
struct Front {
    count: usize,
    left: usize,
}

// The bytes that the descriptor at the front of `s` takes. Where its length is cut off, its head alone is more than there is.
fn front_size(s: &[u8]) -> usize
    ensures { result ≡ size_of s.now }
{
    if s.len() < HEAD {
        return HEAD;
    }
    HEAD + wire::wide(s[1])
}

// Counts the descriptors at the front of `s` up to the first that is cut off, and `most` at most.
fn count_front(s: &[u8], most: usize) -> Front
    ensures { result ≡ front_of most s.now }
{
    if most == 0 {
        return Front {
            count: 0,
            left: s.len(),
        };
    }
    let have = s.len();
    let size = front_size(s);
    if have < size {
        return Front {
            count: 0,
            left: have,
        };
    }
    let rest = count_front(&s[size..], most - 1);
    let count = rest.count + 1;
    Front {
        count,
        left: rest.left,
    }
}

// The number of descriptors of the loop that is the rest of `s` from `start` on, or 39 (place of the first that is cut off,
// bytes left from there). From past the end on the loop is empty.
pub fn count_descriptors(s: &[u8], start: usize) -> Result<usize, Refusal>
    ensures { result ≡ counted (cut_verdict start (drop start s.now)) (length (descriptors_of (drop start s.now))) }
{
    let mut p = start;
    let mut n: usize = 0;
    // A place that goes on by a length that stands there is no index over a range.
    while p < s.len() {
        let front = count_front(&s[p..], AT_A_TIME);
        if front.count == 0 {
            let left = s.len() - p;
            return Err(Refusal {
                number: Refusal::DESCRIPTOR_CUT,
                first: p,
                second: left,
            });
        }
        p = s.len() - front.left;
        n += front.count;
    }
    Ok(n)
}
