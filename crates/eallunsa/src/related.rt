// Reading a related content section.
ghost use Rattle.std.specs.Prelude.{◌≡◌};
ghost use Rattle.link.specs.Answers.{item_from};
ghost use Rattle.rct.specs.Reading.{plain, checked};
ghost use Rattle.rct_entries.specs.Entries.{entry_read};
ghost use Rattle.rct_reader.specs.Sections.{section_read};
ghost use Rattle.rct_links.specs.Links.{numbered_link, numbered_item};
ghost use Rattle.flat_sections.specs.Sections.{rct_answer};
ghost use Rattle.flat_answers.specs.Links.{link_answer, item_answer, step_answer, entry_answer};

use flat_answers::links::{EntryAnswer, ItemAnswer, LinkAnswer, StepAnswer};
use flat_sections::RctAnswer;

// The plain reading.
#[unsafe(no_mangle)]
pub extern "C" fn eallunsa_rct_read(s: &[u8]) -> RctAnswer
    ensures { result ≡ rct_answer (section_read (plain s.now) s.now) }
{
    RctAnswer::of(rct_reader::read_section(s))
}

// The checked reading.
#[unsafe(no_mangle)]
pub extern "C" fn eallunsa_rct_check(s: &[u8]) -> RctAnswer
    ensures { result ≡ rct_answer (section_read (checked s.now) s.now) }
{
    RctAnswer::of(rct_reader::check_section(s))
}

// Link by number.
#[unsafe(no_mangle)]
pub extern "C" fn eallunsa_rct_link(s: &[u8], number: usize) -> LinkAnswer
    ensures { result ≡ link_answer (numbered_link s.now number) }
{
    LinkAnswer::of(rct_links::read_link(s, number))
}

// Item by number.
#[unsafe(no_mangle)]
pub extern "C" fn eallunsa_rct_item(s: &[u8], number: usize, item: usize) -> ItemAnswer
    ensures { result ≡ item_answer (numbered_item s.now number item) }
{
    ItemAnswer::of(rct_links::read_item(s, number, item))
}

// The entry at a place of a payload: from one place to the next it walks over all links.
#[unsafe(no_mangle)]
pub extern "C" fn eallunsa_rct_entry(payload: &[u8], at: u16) -> EntryAnswer
    ensures { result ≡ entry_answer (entry_read payload.now at) }
{
    EntryAnswer::of(rct_entries::read_entry(payload, at))
}

// The item at a place: from one place to the next it walks over the items of a link.
#[unsafe(no_mangle)]
pub extern "C" fn eallunsa_item_from(s: &[u8], at: u32) -> StepAnswer
    ensures { result ≡ step_answer (item_from s.now at) }
{
    StepAnswer::of(link_reader::item_from(s, at))
}
