// An entry of a section by its place: from one place to the next it walks over all links.
#![tactic(auto)]

ghost use Rattle.std.specs.Prelude.{◌≡◌};
ghost use Rattle.rct_entries.specs.Entries.{entry_read};

use length_field::LengthField;
use link::LinkFields;
use link::reading::FieldsRead;
use wire::verdict::Refusal;

// A link without its items, and the place behind its entry.
#[derive(Drop)]
pub struct EntryRead {
    pub fields: LinkFields,
    pub items_at: u32,
    pub next: u16,
}

// The entry at a place of a payload, the bytes of a section up to its CRC: refusals 4 to 16 of this entry alone. Of a
// slice that is longer than a payload can be no more is looked at.
pub fn read_entry(payload: &[u8], at: u16) -> Result<EntryRead, Refusal>
    ensures { result ≡ entry_read payload.now at }
{
    let p = at as usize;
    let next = rct_blocks::past_entry_length(payload, at)?;
    let start = p + LengthField::BYTES;
    let field = LengthField::of_bytes(payload[p], payload[p + 1]);
    let link = fields_reader::read_fields(
        &payload[start..next],
        start as u16,
        field.beside as u16,
    )?;
    Ok(EntryRead {
        fields: link.fields,
        items_at: link.items_at,
        next: next as u16,
    })
}
