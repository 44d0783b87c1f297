// Reading a resolution notification section as a whole, by plain and by checked reading.
#![tactic(auto)]

ghost use Rattle.std.specs.Prelude.{◌≡◌, ◌≤◌, length, Ok};
ghost use Rattle.rnt.specs.Syntax.{common_place};
ghost use Rattle.rnt.specs.Reading.{rnt_header_at, plain, checked};
ghost use Rattle.rnt_walker.specs.Places.{places_at, walked};
ghost use Rattle.rnt_walker.specs.declared.RntPlaces.{RntPlaces};
ghost use Rattle.rnt_reader.specs.Sections.{section_info, section_read};
ghost use Rattle.wire.specs.Verdict.{Fine, Verdict};

use length_field::LengthField;
use rnt::RntHeader;
use rnt_walker::RntPlaces;
use spans::Span;
use wire::verdict::Refusal;

// A section that was read. Its first provider stands where the common descriptors end.
#[derive(Clone, Copy)]
pub struct RntSection {
    pub total: usize,
    pub header: RntHeader,
    pub reserved_common_descriptors_length: u16,
    pub common_descriptors: Span,
    pub number_of_providers: usize,
}

fn header_at(s: &[u8]) -> RntHeader
    requires { common_place ≤ length s.now }
    ensures { result ≡ rnt_header_at s.now }
{
    let section = header_reader::read_header(s[1], s[3], s[4], s[5], s[6], s[7]);
    RntHeader {
        section,
        context_id_type: s[RntHeader::TYPE_AT],
    }
}

// The record of an accepted section, by what its walk found.
fn section_at(s: &[u8], places: RntPlaces) -> RntSection
    requires { (places ≡ places_at s.now 0 0) × (plain s.now ≡ Fine) }
    ensures { result ≡ section_info s.now }
{
    let header = header_at(s);
    let common = RntHeader::common_at();
    let field = LengthField::of_bytes(s[common], s[common + 1]);
    RntSection {
        total: places.total,
        header,
        reserved_common_descriptors_length: field.beside as u16,
        common_descriptors: Span {
            start: common + LengthField::BYTES,
            length: field.length,
        },
        number_of_providers: places.providers,
    }
}

// What either reading answers, by what its walk found.
fn section_of(s: &[u8], found: Result<RntPlaces, Refusal>) -> Result<RntSection, Refusal>
    requires { (p : RntPlaces) → found ≡ Ok p → (p ≡ places_at s.now 0 0) × (plain s.now ≡ Fine) }
    ensures { (v : Verdict) → found ≡ walked v (places_at s.now 0 0) → result ≡ section_read v s.now }
{
    let places = found?;
    Ok(section_at(s, places))
}

// The plain reading: 1, 40, 3 and 41 to 46. No provider is looked for: what the walk finds of the first is passed over.
pub fn read_section(s: &[u8]) -> Result<RntSection, Refusal>
    ensures { result ≡ section_read (plain s.now) s.now }
{
    section_of(s, rnt_readings::plain_places(s, 0, 0))
}

// The checked reading: the plain one with 38 behind 40, then 20.
pub fn check_section(s: &[u8]) -> Result<RntSection, Refusal>
    ensures { result ≡ section_read (checked s.now) s.now }
{
    section_of(s, rnt_readings::checked_places(s, 0, 0))
}
