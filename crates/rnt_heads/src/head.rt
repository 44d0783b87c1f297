// The head of a provider and a whole authority are a name with descriptors behind it: over these, up to an end that is there.
ghost use Rattle.std.specs.Prelude.{◌≡◌, ◌≤◌, min, length};
ghost use Rattle.wire.specs.Verdict.{bad, reached};
ghost use Rattle.length_field.specs.Lengths.{block_end};
ghost use Rattle.rnt.specs.Reading.{named_end, info_place, named_verdict, provider_head};
ghost use Rattle.rnt_heads.specs.Heads.{headed};

use crate::Headed;
use length_field::LengthField;
use wire::verdict::Refusal;

pub(crate) fn smaller(a: usize, b: usize) -> usize
    ensures { result ≡ min a b }
{
    if a < b { a } else { b }
}

fn cut(number: u8, need: usize, have: usize) -> Result<usize, Refusal>
    ensures { result ≡ reached (bad number need have) 0 }
{
    Err(Refusal {
        number,
        first: need,
        second: have,
    })
}

// Over the name and descriptors at `p`, which end at `e` at the latest: `name` (need, have) if the name or its length is cut
// off, `descriptors` (need, have) if they or their length are.
pub(crate) fn past_named(
    s: &[u8],
    e: usize,
    p: usize,
    name: u8,
    descriptors: u8,
) -> Result<usize, Refusal>
    requires { (e ≤ length s.now) × (p ≤ 65537) }
    ensures { result ≡ reached (named_verdict name descriptors s.now e p) (named_end s.now p) }
{
    let first = p + 1;
    if e < first {
        return cut(name, first, e);
    }
    let behind = first + wire::wide(s[p]);
    if e < behind {
        return cut(name, behind, e);
    }
    let start = behind + LengthField::BYTES;
    if e < start {
        return cut(descriptors, start, e);
    }
    let field = LengthField::of_bytes(s[behind], s[behind + 1]);
    let end = start + field.length;
    if e < end {
        return cut(descriptors, end, e);
    }
    Ok(end)
}

// Over the length, the name and the descriptors of the provider at `p` of a payload that ends at `e`: 42 to 45.
pub(crate) fn past_provider_head(s: &[u8], e: usize, p: usize) -> Result<Headed, Refusal>
    requires { (e ≤ length s.now) × (p ≤ 65535) }
    ensures { result ≡ headed (provider_head s.now e p) (named_end s.now (info_place p)) (block_end s.now p) }
{
    let start = p + LengthField::BYTES;
    if e < start {
        return Err(Refusal {
            number: Refusal::PROVIDER_CUT,
            first: start,
            second: e,
        });
    }
    let field = LengthField::of_bytes(s[p], s[p + 1]);
    field.check_left(e - start, Refusal::PROVIDER_TOO_LONG)?;
    let end = start + field.length;
    let first = past_named(
        s,
        end,
        start,
        Refusal::PROVIDER_NAME_CUT,
        Refusal::PROVIDER_DESCRIPTORS_CUT,
    )?;
    Ok(Headed { first, end })
}
