// Where the body of a link stands in its section, by number.
#![tactic(auto)]

ghost use Rattle.std.specs.Prelude.{◌≡◌, Err};
ghost use Rattle.wire.specs.Refusals.{no_such_number};
ghost use Rattle.wire.specs.Verdict.{Fine};
ghost use Rattle.rct.specs.Reading.{plain};
ghost use Rattle.rct_walker.specs.Places.{places_at};
ghost use Rattle.rct_bodies.specs.Bodies.{numbered_body};

use length_field::LengthField;
use rct_walker::{LinkSpan, RctPlaces};
use spans::Span;
use wire::verdict::Refusal;

// Where the body of a link stands in its section, and the four bits before its length.
#[derive(Drop)]
pub struct NumberedBody {
    pub reserved: u16,
    pub body: Span,
}

fn no_such(number: usize, count: usize) -> Result<NumberedBody, Refusal>
    ensures { result ≡ Err (record { number = no_such_number; first = number; second = count }) }
{
    Err(Refusal {
        number: Refusal::NO_SUCH_NUMBER,
        first: number,
        second: count,
    })
}

// The body of link `number` of an accepted section.
fn body_at(s: &[u8], places: RctPlaces, number: usize) -> Result<NumberedBody, Refusal>
    requires { (places ≡ places_at s.now number) × (plain s.now ≡ Fine) }
    ensures { result ≡ numbered_body s.now number }
{
    if places.count <= number {
        return no_such(number, places.count);
    }
    let link = places.link;
    match link {
        Some(LinkSpan { start, end: _ }) => {
            let field = LengthField::of_bytes(s[start], s[start + 1]);
            Ok(NumberedBody {
                reserved: field.beside as u16,
                body: Span {
                    start: start + LengthField::BYTES,
                    length: field.length,
                },
            })
        }
        None => no_such(number, places.count),
    }
}

// The body of a link by number: the plain reading, then 21 (number, count).
pub fn numbered_body(s: &[u8], number: usize) -> Result<NumberedBody, Refusal>
    ensures { result ≡ numbered_body s.now number }
{
    let places = rct_readings::plain_places(s, number)?;
    body_at(s, places, number)
}
