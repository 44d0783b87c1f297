// A link put into a section in a lent buffer, in place of what lies between two places.
ghost use Rattle.std.specs.Prelude.{◌≡◌, ◌+◌, ◌≤◌, length};
ghost use Rattle.std.proofs.lemmas.List.Edits.{sets};
ghost use Rattle.length_field.specs.Lengths.{longest};
ghost use Rattle.link_draft.specs.Checks.{check_link};
ghost use Rattle.link_draft.specs.Lengths.{link_length};
ghost use Rattle.frame.specs.Reading.{total_of};
ghost use Rattle.rct_edit.specs.Edit.{most_links};
ghost use Rattle.rct_edit.specs.Answers.{answer};
ghost use Rattle.rct_editor.specs.Splicing.{entry_bytes, Spot, between};
ghost use Rattle.wire.specs.Verdict.{Fine};

use field::Field;
use frame::Table;
use length_field::LengthField;
use link::LinkInfo;
use rct_edit::room::check_room;
use wire::verdict::Refusal;

// Puts the link in place of what lies between `from` and `to` of a section of `total` bytes, if its record passes its
// checks and the section has room.
pub(crate) fn put_between(
    b: &mut [u8],
    total: usize,
    from: usize,
    to: usize,
    count: usize,
    text: &[u8],
    link: LinkInfo,
) -> Result<usize, Refusal>
    requires { Spot b.old from to × ((total ≡ total_of b.old) × (count ≤ most_links)) }
    ensures value { result ≡ answer (between b.old from to count text.now link) }
    ensures b_after { b.new ≡ (between b.old from to count text.now link).buffer }
{
    let own = link_checker::check_link(text, link);
    own.verdict?;
    let body = own.length;
    let section_length = total - Table::UNCOUNTED - (to - from) + LengthField::BYTES + body;
    check_room(b.len(), section_length)?;
    let behind = from + LengthField::BYTES + body;
    byte_moves::move_within(b, to, behind, frame::payload_end(total) - to);
    put_entry(b, from, body, text, link);
    rct_stores::put_numbers(b, section_length, count as u8);
    let new = frame_ending::seal(b, frame::payload_end(Table::UNCOUNTED + section_length));
    rct_stores::fill(b, new, total);
    Ok(new)
}

// The entry of a record that passed its checks: its length with the four bits, then the body.
fn put_entry(b: &mut [u8], at: usize, body: usize, text: &[u8], link: LinkInfo)
    requires { (check_link text.now link ≡ Fine) × ((body ≡ link_length link) × ((body ≤ longest) × (at + 2 + body ≤ length b.old))) }
    ensures { b.new ≡ sets b.old at (entry_bytes text.now link) }
{
    let field = LengthField {
        beside: Field::LINK_LENGTH_RESERVED.low(link.fields.reserved_link_info_length) as u8,
        length: body,
    };
    let bytes = field.to_bytes();
    byte_stores::put_at(b, at, &bytes);
    link_writer::put_link(b, at + LengthField::BYTES, text, link);
}
