// The links of a section and their items, by number.
#![tactic(auto)]

ghost use Rattle.std.specs.Prelude.{◌≡◌};
ghost use Rattle.rct_links.specs.Links.{numbered_link, numbered_item};

use link::{LinkInfo, LinkItem};
use spans::handed;
use wire::verdict::Refusal;

// Link by number. Its ranges are counted from the section's first byte.
pub fn read_link(s: &[u8], number: usize) -> Result<LinkInfo, Refusal>
    ensures { result ≡ numbered_link s.now number }
{
    let found = rct_bodies::numbered_body(s, number)?;
    let body = found.body;
    link_reader::read_link(handed(s, body), body.start as u16, found.reserved)
}

// Item by number: 21 for the link, then for the item.
pub fn read_item(s: &[u8], number: usize, item: usize) -> Result<LinkItem, Refusal>
    ensures { result ≡ numbered_item s.now number item }
{
    let found = rct_bodies::numbered_body(s, number)?;
    let body = found.body;
    link_reader::read_item(handed(s, body), body.start as u16, item)
}
