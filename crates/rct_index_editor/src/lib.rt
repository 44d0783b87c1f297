// Appending and replacing with an index, which is brought up from what the edit answers: the section is not read again.
#![tactic(auto)]

ghost use Rattle.std.specs.Prelude.{◌≡◌};
ghost use Rattle.rct_edit.specs.Calls.{appending, replacing};
ghost use Rattle.rct_index.specs.Editing.{appending_indexed, replacing_indexed};

use edit_answers::Spliced;
use link::LinkInfo;
use rct_index::{IndexEdited, LinkMarks, RctIndex};

// Appends a link, whose ranges are of `text`, and brings the index up with it.
pub fn append(b: &mut [u8], text: &[u8], link: LinkInfo, index: RctIndex) -> IndexEdited
    ensures value { result ≡ appending_indexed b.old text.now link index }
    ensures b_after { b.new ≡ (appending b.old text.now link).buffer }
{
    let fields = link.fields;
    let marks = LinkMarks::of(fields);
    let put = rct_editor::editing::append_placed(b, text, link);
    IndexEdited {
        edited: Spliced::edited(put),
        index: rct_index_updater::bring_up(index, rct_index_updater::last_of(put), put, marks),
    }
}

// Puts a link, whose ranges are of `text`, in place of link `number`, and brings the index up with it.
pub fn replace(
    b: &mut [u8],
    number: usize,
    text: &[u8],
    link: LinkInfo,
    index: RctIndex,
) -> IndexEdited
    ensures value { result ≡ replacing_indexed b.old number text.now link index }
    ensures b_after { b.new ≡ (replacing b.old number text.now link).buffer }
{
    let fields = link.fields;
    let marks = LinkMarks::of(fields);
    let put = rct_editor::editing::replace_placed(b, number, text, link);
    IndexEdited {
        edited: Spliced::edited(put),
        index: rct_index_updater::bring_up(index, number, put, marks),
    }
}
