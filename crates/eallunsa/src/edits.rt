// Making, appending and replacing in a lent buffer.
ghost use Rattle.std.specs.Prelude.{◌≡◌};
ghost use Rattle.rct_edit.specs.Answers.{answer};
ghost use Rattle.rct_edit.specs.Calls.{making, appending, replacing};
ghost use Rattle.flat_link.specs.Links.{info_of};
ghost use Rattle.flat_sections.specs.Sections.{rct_header_of};
ghost use Rattle.flat_answers.specs.Edits.{edit_answer};

use flat_answers::edits::EditAnswer;
use flat_link::FlatLink;
use flat_sections::FlatRctHeader;
use link::Range;

// Makes a section with no links.
#[unsafe(no_mangle)]
pub extern "C" fn eallunsa_rct_make(
    b: &mut [u8],
    header: FlatRctHeader,
    reserved_descriptor_loop_length: u16,
    text: &[u8],
    descriptors: Range,
) -> EditAnswer
    ensures value { result ≡ edit_answer (answer (making b.old (rct_header_of header) reserved_descriptor_loop_length text.now descriptors)) }
    ensures b_after { b.new ≡ (making b.old (rct_header_of header) reserved_descriptor_loop_length text.now descriptors).buffer }
{
    EditAnswer::of(rct_maker::make(
        b,
        header.header(),
        reserved_descriptor_loop_length,
        text,
        descriptors,
    ))
}

// Appends a link, whose ranges are of `text`.
#[unsafe(no_mangle)]
pub extern "C" fn eallunsa_rct_append(b: &mut [u8], text: &[u8], link: FlatLink) -> EditAnswer
    ensures value { result ≡ edit_answer (answer (appending b.old text.now (info_of link))) }
    ensures b_after { b.new ≡ (appending b.old text.now (info_of link)).buffer }
{
    EditAnswer::of(rct_editor::editing::append(b, text, link.link()))
}

// Puts a link, whose ranges are of `text`, in place of link `number`.
#[unsafe(no_mangle)]
pub extern "C" fn eallunsa_rct_replace(
    b: &mut [u8],
    number: usize,
    text: &[u8],
    link: FlatLink,
) -> EditAnswer
    ensures value { result ≡ edit_answer (answer (replacing b.old number text.now (info_of link))) }
    ensures b_after { b.new ≡ (replacing b.old number text.now (info_of link)).buffer }
{
    EditAnswer::of(rct_editor::editing::replace(b, number, text, link.link()))
}
