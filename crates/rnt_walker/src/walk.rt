// One pass over a section: it checks what it walks over, counts, and finds the places on its way.
ghost use Rattle.std.specs.Prelude.{◌≡◌, ◌≤◌, eqb, length};
ghost use Rattle.wire.specs.Choice.{pick};
ghost use Rattle.length_field.specs.Lengths.{block_end};
ghost use Rattle.wire.specs.Runs.{places_to};
ghost use Rattle.frame.specs.Syntax.{least};
ghost use Rattle.frame.specs.Reading.{total_of, payload_end};
ghost use Rattle.rnt.specs.Syntax.{common_place, rnt};
ghost use Rattle.rnt.specs.Reading.{named_end, authority_places, provider_verdict, payload_verdict, reading};
ghost use Rattle.rnt_walker.specs.Places.{places_at, walked};
ghost use Rattle.rnt_walker.specs.Stages.{counted, passed, authorities_verdict, providers_verdict};

use crate::RntPlaces;
use frame::Demands;
use length_field::LengthField;
use rnt::RntHeader;
use rnt_heads::Headed;
use wire::verdict::Refusal;

// What stands at the number that is looked for, and else what was found before.
fn found_at(i: usize, number: usize, here: usize, before: usize) -> usize
    ensures { result ≡ pick (eqb i number) here before }
{
    if i == number { here } else { before }
}

// How many authorities there are, and where the one that was asked for stands.
#[derive(Drop)]
struct Counted {
    count: usize,
    place: usize,
}

// Over the authorities from `at` up to `e`, where their provider ends: 46.
fn past_authorities(s: &[u8], e: usize, at: usize, number: usize) -> Result<Counted, Refusal>
    requires { (at ≤ e) × ((e ≤ length s.now) × (e ≤ 65535)) }
    ensures { result ≡ counted (authorities_verdict s.now e at) (places_to (named_end s.now) e at) number }
{
    let mut p = at;
    let mut i: usize = 0;
    let mut place: usize = 0;
    // A place that goes on by a length that stands there is no index over a range.
    while p < e {
        let next = rnt_heads::past_authority(s, e, p as u16)?;
        place = found_at(i, number, p, place);
        p = next;
        i += 1;
    }
    Ok(Counted { count: i, place })
}

// Where a provider ends, how many authorities it has, and where the one that was asked for stands.
#[derive(Drop)]
struct Passed {
    end: usize,
    count: usize,
    place: usize,
}

// Over the provider at `p` of a payload that ends at `e`: 42 to 46.
fn past_provider(s: &[u8], e: usize, p: usize, number: usize) -> Result<Passed, Refusal>
    requires { (e ≤ length s.now) × ((e ≤ 65535) × (p ≤ 65535)) }
    ensures { result ≡ passed (provider_verdict s.now e p) (block_end s.now p) (authority_places s.now p) number }
{
    let head = rnt_heads::past_head(s, e, p as u16)?;
    let authorities = past_authorities(s, head.end, head.first, number)?;
    Ok(Passed {
        end: head.end,
        count: authorities.count,
        place: authorities.place,
    })
}

// Over the providers of a section of `total` bytes, the first of which stands at `at`, up to the payload's end `e`.
fn past_providers(
    s: &[u8],
    total: usize,
    e: usize,
    at: usize,
    provider: usize,
    authority: usize,
) -> Result<RntPlaces, Refusal>
    requires { ((total ≡ total_of s.now) × ((e ≡ payload_end s.now) × (at ≡ block_end s.now common_place))) × ((at ≤ e) × ((e ≤ length s.now) × (e ≤ 65535))) }
    ensures { result ≡ walked (providers_verdict s.now) (places_at s.now provider authority) }
{
    let mut p = at;
    let mut i: usize = 0;
    let mut provider_at: usize = 0;
    let mut authorities: usize = 0;
    let mut authority_at: usize = 0;
    // A place that goes on by a length that stands there is no index over a range.
    while p < e {
        let passed = past_provider(s, e, p, authority)?;
        provider_at = found_at(i, provider, p, provider_at);
        authorities = found_at(i, provider, passed.count, authorities);
        authority_at = found_at(i, provider, passed.place, authority_at);
        p = passed.end;
        i += 1;
    }
    Ok(RntPlaces {
        total,
        providers: i,
        provider_at,
        authorities,
        authority_at,
    })
}

// The common descriptors and the providers of a section that was opened.
fn past_payload(
    s: &[u8],
    total: usize,
    provider: usize,
    authority: usize,
) -> Result<RntPlaces, Refusal>
    requires { (total ≡ total_of s.now) × ((least rnt ≤ total) × ((total ≤ length s.now) × (total ≤ 65535))) }
    ensures { result ≡ walked (payload_verdict s.now) (places_at s.now provider authority) }
{
    let e = frame::payload_end(total);
    let common = RntHeader::common_at();
    let field = LengthField::of_bytes(s[common], s[common + 1]);
    let start = common + LengthField::BYTES;
    field.check_left(e - start, Refusal::COMMON_TOO_LONG)?;
    past_providers(s, total, e, start + field.length, provider, authority)
}

// The whole section, by what a reading demands.
pub fn read_places(
    s: &[u8],
    demands: Demands,
    provider: usize,
    authority: usize,
) -> Result<RntPlaces, Refusal>
    ensures { result ≡ walked (reading demands s.now) (places_at s.now provider authority) }
{
    let total = frame_opening::open(s, RntHeader::table(), demands)?;
    past_payload(s, total, provider, authority)
}
