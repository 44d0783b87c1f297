// The index beside a section: building it, asking it, and appending and replacing with it.
ghost use Rattle.std.specs.Prelude.{◌≡◌};
ghost use Rattle.wire.specs.Choice.{bit};
ghost use Rattle.number_set.specs.Members.{members, is_member, trues};
ghost use Rattle.edit_answers.specs.Answers.{edited_by};
ghost use Rattle.rct_edit.specs.Calls.{appending, replacing, appending_placed, replacing_placed};
ghost use Rattle.rct_index.specs.Index.{place_in};
ghost use Rattle.rct_index.specs.Building.{building};
ghost use Rattle.rct_index.specs.Editing.{appending_indexed, replacing_indexed};
ghost use Rattle.rct_index_updater.specs.Bringing.{anew_by};
ghost use Rattle.flat_link.specs.Links.{info_of};
ghost use Rattle.flat_answers.specs.Edits.{index_answer, index_edit_answer};

use edit_answers::Spliced;
use flat_answers::edits::{IndexAnswer, IndexEditAnswer};
use flat_link::FlatLink;
use number_set::NumberSet;
use rct_index::{IndexEdited, LinkMarks, RctIndex};
use wire::verdict::Refusal;

// The index of a section.
#[unsafe(no_mangle)]
pub extern "C" fn eallunsa_rct_index(s: &[u8]) -> IndexAnswer
    ensures { result ≡ index_answer (building s.now) }
{
    IndexAnswer::of(rct_indexer::build_index(s))
}

// Of an index's places that of a link.
#[unsafe(no_mangle)]
pub extern "C" fn eallunsa_index_place(places: &[u16], number: usize) -> u16
    ensures { result ≡ place_in places.now number }
{
    RctIndex::place(places, number)
}

// Whether a set has a link's number: 1 or 0.
#[unsafe(no_mangle)]
pub extern "C" fn eallunsa_set_has(set: NumberSet, number: usize) -> u8
    ensures { result ≡ bit (is_member set number) }
{
    wire::flag(set.has(number))
}

// How many numbers a set has.
#[unsafe(no_mangle)]
pub extern "C" fn eallunsa_set_count(set: NumberSet) -> usize
    ensures { result ≡ trues (members set) }
{
    number_count::count(set)
}

// The two halves of an edit with an index, one after the other: the record of the link is gone when the index is brought up,
// and so they share the stack.
fn put_last(b: &mut [u8], text: &[u8], link: FlatLink) -> Result<Spliced, Refusal>
    ensures value { result ≡ appending_placed b.old text.now (info_of link) }
    ensures b_after { b.new ≡ (appending b.old text.now (info_of link)).buffer }
{
    rct_editor::editing::append_placed(b, text, link.link())
}

fn put_over(b: &mut [u8], number: usize, text: &[u8], link: FlatLink) -> Result<Spliced, Refusal>
    ensures value { result ≡ replacing_placed b.old number text.now (info_of link) }
    ensures b_after { b.new ≡ (replacing b.old number text.now (info_of link)).buffer }
{
    rct_editor::editing::replace_placed(b, number, text, link.link())
}

fn answered(
    index: RctIndex,
    number: usize,
    put: Result<Spliced, Refusal>,
    marks: LinkMarks,
) -> IndexEditAnswer
    ensures { result ≡ index_edit_answer (record { edited = edited_by put; index = anew_by index number put marks }) }
{
    IndexEditAnswer::of(IndexEdited {
        edited: Spliced::edited(put),
        index: rct_index_updater::bring_up(index, number, put, marks),
    })
}

// Appends a link, and brings the index up with it.
#[unsafe(no_mangle)]
pub extern "C" fn eallunsa_rct_index_append(
    b: &mut [u8],
    text: &[u8],
    link: FlatLink,
    index: RctIndex,
) -> IndexEditAnswer
    ensures value { result ≡ index_edit_answer (appending_indexed b.old text.now (info_of link) index) }
    ensures b_after { b.new ≡ (appending b.old text.now (info_of link)).buffer }
{
    let flat = link.fields;
    let marks = LinkMarks::of(flat.fields());
    let put = put_last(b, text, link);
    answered(index, rct_index_updater::last_of(put), put, marks)
}

// Puts a link in place of link `number`, and brings the index up with it.
#[unsafe(no_mangle)]
pub extern "C" fn eallunsa_rct_index_replace(
    b: &mut [u8],
    number: usize,
    text: &[u8],
    link: FlatLink,
    index: RctIndex,
) -> IndexEditAnswer
    ensures value { result ≡ index_edit_answer (replacing_indexed b.old number text.now (info_of link) index) }
    ensures b_after { b.new ≡ (replacing b.old number text.now (info_of link)).buffer }
{
    let flat = link.fields;
    let marks = LinkMarks::of(flat.fields());
    let put = put_over(b, number, text, link);
    answered(index, number, put, marks)
}
