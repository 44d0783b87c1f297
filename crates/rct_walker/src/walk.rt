// One pass over a section: it checks what it walks over, and finds the places on its way. The stages walk over the payload, the
// bytes up to the CRC.
ghost use Rattle.std.specs.Prelude.{◌≡◌, ◌+◌, ◌≤◌, min};
ghost use Rattle.length_field.specs.Lengths.{block_end};
ghost use Rattle.wire.specs.Verdict.{reached};
ghost use Rattle.rct.specs.Syntax.{head_length};
ghost use Rattle.rct.specs.Reading.{count_at, after, link_place, entry_verdict, links_verdict, reading};
ghost use Rattle.rct_blocks.specs.Ends.{end_of};
ghost use Rattle.rct_walker.specs.Places.{span_by, places_at, walked, loop_found};
ghost use Rattle.rct_walker.specs.Stages.{spanned, rest_verdict, places_in};

use crate::{LinkSpan, RctLoop, RctPlaces};
use frame::Demands;
use length_field::LengthField;
use rct::RctHeader;
use wire::verdict::Refusal;

// Over the entry at a place, its body checked: refusals 4 to 16.
fn past_entry(payload: &[u8], at: u16) -> Result<usize, Refusal>
    ensures { result ≡ reached (entry_verdict payload.now (end_of payload.now) at) (block_end payload.now at) }
{
    let next = rct_blocks::past_entry_length(payload, at)?;
    let start = (at as usize) + LengthField::BYTES;
    link_walker::check_body(&payload[start..next])?;
    Ok(next)
}

// Over `n` links, the first of which stands at `at`.
fn past_links(payload: &[u8], at: u16, n: usize) -> Result<usize, Refusal>
    requires { at ≤ end_of payload.now }
    ensures { result ≡ reached (links_verdict n payload.now (end_of payload.now) at) (after n payload.now at) }
{
    let mut p = at as usize;
    for _ in 0..n {
        p = past_entry(payload, p as u16)?;
    }
    Ok(p)
}

// The same where there may be none: the loop and its answer cost more than all else that an empty section does. The slice that
// is handed on is made anew, so that it is stored only where there are links.
fn past_any_links(payload: &[u8], at: u16, n: usize) -> Result<usize, Refusal>
    requires { at ≤ end_of payload.now }
    ensures { result ≡ reached (links_verdict n payload.now (end_of payload.now) at) (after n payload.now at) }
{
    if n == 0 {
        return Ok(at as usize);
    }
    past_links(&payload[..], at, n)
}

fn smaller(a: usize, b: usize) -> usize
    ensures { result ≡ min a b }
{
    if a < b { a } else { b }
}

// Where a link starts and ends.
#[derive(Drop)]
struct Spanned {
    start: usize,
    end: usize,
}

// Over the links `before` a link, and over as many more as `own` says: that one, or none where there is none.
fn past_link(payload: &[u8], before: usize, own: usize) -> Result<Spanned, Refusal>
    requires { head_length ≤ end_of payload.now }
    ensures { result ≡ spanned (links_verdict (before + own) payload.now (end_of payload.now) head_length) (link_place payload.now before) (link_place payload.now (before + own)) }
{
    let start = past_links(payload, RctHeader::HEAD as u16, before)?;
    let end = past_links(payload, start as u16, own)?;
    Ok(Spanned { start, end })
}

// The span of link `number` of `count`.
fn link_span(count: usize, number: usize, start: usize, end: usize) -> Option<LinkSpan>
    ensures { result ≡ span_by count number start end }
{
    if number <= count {
        Some(LinkSpan { start, end })
    } else {
        None
    }
}

// Over the links that are left, the first of which stands at `at`, and over the loop, whose place is answered.
fn past_rest(payload: &[u8], at: u16, left: usize) -> Result<usize, Refusal>
    requires { at ≤ end_of payload.now }
    ensures { result ≡ reached (rest_verdict left payload.now (end_of payload.now) at) (after left payload.now at) }
{
    let loop_at = past_any_links(payload, at, left)?;
    rct_blocks::check_loop(payload, loop_at as u16)?;
    Ok(loop_at)
}

// The links and the loop of the payload of a section of `total` bytes.
fn past_payload(payload: &[u8], total: usize, number: usize) -> Result<RctPlaces, Refusal>
    requires { head_length ≤ end_of payload.now }
    ensures { result ≡ walked (rest_verdict (count_at payload.now) payload.now (end_of payload.now) head_length) (places_in total payload.now number) }
{
    let count = wire::wide(payload[RctHeader::COUNT_AT]);
    let before = smaller(number, count);
    let own = smaller(count - before, 1);
    let link = past_link(payload, before, own)?;
    let loop_at = past_rest(payload, link.end as u16, count - before - own)?;
    Ok(RctPlaces {
        total,
        link: link_span(count, number, link.start, link.end),
        count,
        loop_at,
    })
}

// The whole section, by what a reading demands: its places.
pub fn read_places(s: &[u8], demands: Demands, number: usize) -> Result<RctPlaces, Refusal>
    ensures { result ≡ walked (reading demands s.now) (places_at s.now number) }
{
    let total = frame_opening::open(s, RctHeader::table(), demands)?;
    let end = frame::payload_end(total);
    past_payload(&s[..end], total, number)
}

// The whole section, by what a reading demands: the place of its loop.
pub fn read_loop(s: &[u8], demands: Demands) -> Result<RctLoop, Refusal>
    ensures { result ≡ loop_found (reading demands s.now) s.now }
{
    let total = frame_opening::open(s, RctHeader::table(), demands)?;
    let end = frame::payload_end(total);
    let links = wire::wide(s[RctHeader::COUNT_AT]);
    let loop_at = past_rest(&s[..end], RctHeader::HEAD as u16, links)?;
    Ok(RctLoop {
        total,
        count: links,
        loop_at,
    })
}
