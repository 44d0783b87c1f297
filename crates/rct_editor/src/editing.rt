// Appending a link to a section in a lent buffer, and replacing one of its links.
ghost use Rattle.std.specs.Prelude.{◌≡◌, Err};
ghost use Rattle.wire.specs.Refusals.{no_such_number};
ghost use Rattle.rct_edit.specs.Answers.{answer};
ghost use Rattle.rct_edit.specs.Calls.{appending, replacing, appending_placed, replacing_placed};

use crate::splicing;
use edit_answers::Spliced;
use link::LinkInfo;
use rct_walker::LinkSpan;
use wire::verdict::Refusal;

// Appends a link, whose ranges are of `text`, behind the last link of the section in `b`, and answers where it went.
pub fn append_placed(b: &mut [u8], text: &[u8], link: LinkInfo) -> Result<Spliced, Refusal>
    ensures value { result ≡ appending_placed b.old text.now link }
    ensures b_after { b.new ≡ (appending b.old text.now link).buffer }
{
    let places = rct_readings::checked_places(b, 0)?;
    let at = places.loop_at;
    let count = places.count;
    if rct_edit::most_links() <= count {
        return Err(Refusal {
            number: Refusal::NO_MORE_LINKS,
            first: rct_edit::most_links(),
            second: 0,
        });
    }
    let edited = splicing::put_between(b, places.total, at, at, count + 1, text, link);
    Spliced::of(edited, places.total, count, at)
}

// The same, without the places.
pub fn append(b: &mut [u8], text: &[u8], link: LinkInfo) -> Result<usize, Refusal>
    ensures value { result ≡ answer (appending b.old text.now link) }
    ensures b_after { b.new ≡ (appending b.old text.now link).buffer }
{
    let put = append_placed(b, text, link);
    Spliced::edited(put)
}

// Puts a link, whose ranges are of `text`, in place of link `number` of the section in `b`, and answers where it went.
pub fn replace_placed(
    b: &mut [u8],
    number: usize,
    text: &[u8],
    link: LinkInfo,
) -> Result<Spliced, Refusal>
    ensures value { result ≡ replacing_placed b.old number text.now link }
    ensures b_after { b.new ≡ (replacing b.old number text.now link).buffer }
{
    let places = rct_readings::checked_places(b, number)?;
    let count = places.count;
    if count <= number {
        return no_such(number, count);
    }
    let span = places.link;
    match span {
        Some(LinkSpan { start, end }) => {
            let edited = splicing::put_between(b, places.total, start, end, count, text, link);
            Spliced::of(edited, places.total, count, start)
        }
        None => no_such(number, count),
    }
}

// The same, without the places.
pub fn replace(b: &mut [u8], number: usize, text: &[u8], link: LinkInfo) -> Result<usize, Refusal>
    ensures value { result ≡ answer (replacing b.old number text.now link) }
    ensures b_after { b.new ≡ (replacing b.old number text.now link).buffer }
{
    let put = replace_placed(b, number, text, link);
    Spliced::edited(put)
}

fn no_such(number: usize, count: usize) -> Result<Spliced, Refusal>
    ensures { result ≡ Err (record { number = no_such_number; first = number; second = count }) }
{
    Err(Refusal {
        number: Refusal::NO_SUCH_NUMBER,
        first: number,
        second: count,
    })
}
