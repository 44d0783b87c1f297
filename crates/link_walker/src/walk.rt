// The stages of the walk over a body: each answers the place behind what it passed, or the refusal.
ghost use Rattle.std.specs.Prelude.{◌≡◌, ◌≤◌, length};
ghost use Rattle.field.specs.Fields.{low, link_type, number_items};
ghost use Rattle.wire.specs.Verdict.{reached, Fine};
ghost use Rattle.link.specs.Reading.{uri_end_place, locator_rows, count_place, tail_place};
ghost use Rattle.link_walker.specs.Stages.{type_in, uri_rows, locator_row, locator_end, tail_rows, rest_rows};

use field::Field;
use length_field::LengthField;
use link::LinkFields;
use wire::verdict::Refusal;

// The link type, of the byte that it stands in.
fn type_of(byte: u8) -> u16
    ensures { result ≡ type_in byte }
{
    Field::LINK_TYPE.low((byte as u16) / 16)
}

// The number of items, of the byte that it stands in.
fn count_of(byte: u8) -> usize
    ensures { (result ≡ low number_items byte) × (result ≤ number_items.widest) }
{
    Field::NUMBER_ITEMS.low(byte as u16) as usize
}

// Over the first four bytes and the URI.
pub(crate) fn past_uri(s: &[u8]) -> Result<usize, Refusal>
    ensures { result ≡ reached (uri_rows s.now) (uri_end_place s.now) }
{
    let have = s.len();
    if have < LinkFields::HEAD {
        return Err(Refusal {
            number: Refusal::BODY_TOO_SHORT,
            first: LinkFields::HEAD,
            second: have,
        });
    }
    if !link::has_uri(type_of(s[0])) {
        return Ok(LinkFields::HEAD);
    }
    if have < LinkFields::URI_START {
        return Err(Refusal {
            number: Refusal::URI_LENGTH_CUT,
            first: LinkFields::URI_START,
            second: have,
        });
    }
    let end = LinkFields::URI_START + wire::wide(s[LinkFields::HEAD]);
    if have < end {
        return Err(Refusal {
            number: Refusal::URI_CUT,
            first: end,
            second: have,
        });
    }
    Ok(end)
}

// Over the locator at `at`. It may take what the link has left, never more.
fn locator_end(s: &[u8], at: usize) -> Result<usize, Refusal>
    requires { at ≤ length s.now }
    ensures { result ≡ reached (locator_row s.now at) (locator_end s.now at) }
{
    let used = locator_reader::locator_size(&s[at..])?;
    Ok(at + used)
}

// Over the locator, if there is one.
pub(crate) fn past_locator(s: &[u8], uri_end: usize) -> Result<usize, Refusal>
    requires { (uri_rows s.now ≡ Fine) × (uri_end ≡ uri_end_place s.now) }
    ensures { result ≡ reached (locator_rows s.now) (count_place s.now) }
{
    if !link::has_locator(type_of(s[0])) {
        return Ok(uri_end);
    }
    let have = s.len();
    let first = uri_end + 1;
    if have < first {
        return Err(Refusal {
            number: Refusal::NO_LOCATOR,
            first,
            second: have,
        });
    }
    locator_end(s, uri_end)
}

// Up to the default icon flag, the icon and the descriptors at `p`, with which the body ends.
fn up_to_tail(s: &[u8], p: usize) -> Result<usize, Refusal>
    requires { p ≤ length s.now }
    ensures { result ≡ reached (tail_rows s.now p) p }
{
    let have = s.len();
    let start = p + LengthField::BYTES;
    if have < start {
        return Err(Refusal {
            number: Refusal::ICON_CUT,
            first: start,
            second: have,
        });
    }
    let field = LengthField::of_bytes(s[p], s[p + 1]);
    field.check_last(
        have - start,
        Refusal::DESCRIPTORS_TOO_LONG,
        Refusal::LINK_SLACK,
    )?;
    Ok(p)
}

// The number of items, the items, and what the body ends with: the place of the latter.
pub(crate) fn past_rest(s: &[u8], count_at: usize) -> Result<usize, Refusal>
    requires { (count_at ≡ count_place s.now) × (count_at ≤ length s.now) }
    ensures { result ≡ reached (rest_rows s.now) (tail_place s.now) }
{
    let have = s.len();
    let first = count_at + LinkFields::COUNT;
    if have < first {
        return Err(Refusal {
            number: Refusal::ITEM_COUNT_CUT,
            first,
            second: have,
        });
    }
    let tail = item_walker::past_items(s, first as u32, count_of(s[count_at]))?;
    up_to_tail(s, tail)
}
