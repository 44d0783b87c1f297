// Reading a link without its items from its body, a slice of its own, which is walked over and checked first.
#![tactic(auto)]

ghost use Rattle.std.specs.Prelude.{◌≡◌};
ghost use Rattle.link.specs.Reading.{body_verdict};
ghost use Rattle.link.specs.Records.{locator_info};
ghost use Rattle.link.specs.Answers.{fields_read};
ghost use Rattle.fields_reader.specs.Stages.{Laid};
ghost use Rattle.wire.specs.Verdict.{Fine};

use field::Field;
use link::LinkFields;
use link::reading::FieldsRead;
use locator::DvbBinaryLocator;
use wire::verdict::Refusal;

mod record;

// The answer of a body whose places were found and whose locator was read.
fn fields_got(
    s: &[u8],
    base: u16,
    reserved: u16,
    uri_end: usize,
    locator: Option<DvbBinaryLocator>,
    count_at: usize,
    tail: usize,
) -> Result<FieldsRead, Refusal>
    requires { (body_verdict s.now ≡ Fine) × Laid s.now uri_end count_at tail × (locator ≡ locator_info s.now) }
    ensures { result ≡ fields_read base reserved s.now }
{
    let items = (base as usize) + (count_at + LinkFields::COUNT);
    Ok(FieldsRead {
        fields: record::fields_at(s, base, reserved, uri_end, locator, count_at, tail),
        items_at: items as u32,
    })
}

// A link without its items, or its refusal. `base` is the body's place in the text that ranges and the place of the first
// item are counted in, `reserved` the four bits before its length. Each of the two arms of a link makes its own answer, so
// that of a link without a locator none is stored.
pub fn read_fields(s: &[u8], base: u16, reserved: u16) -> Result<FieldsRead, Refusal>
    ensures { result ≡ fields_read base reserved s.now }
{
    let places = link_walker::fields_places(s)?;
    if !link::has_locator(Field::LINK_TYPE.low((s[0] as u16) / 16)) {
        return fields_got(
            s,
            base,
            reserved,
            places.uri_end,
            None,
            places.count_at,
            places.tail,
        );
    }
    // Never: the places were found.
    let read = locator_reader::read_locator(&s[places.uri_end..])?;
    fields_got(
        s,
        base,
        reserved,
        places.uri_end,
        Some(read.locator),
        places.count_at,
        places.tail,
    )
}
