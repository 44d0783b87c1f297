// Making, appending and replacing in a lent buffer: the numbers that the calls share.
#![tactic(auto)]

ghost use Rattle.std.specs.Prelude.{◌≡◌};
ghost use Rattle.rct_edit.specs.Edit.{most_links, filler};

pub mod room;

// The most links that the count's byte can tell.
pub const MOST_LINKS: usize = 255;

// What the bytes from a new end to the old one become.
const FILLER: u8 = 0xFF;

// The constants as calls, whose contracts tie them to the definitions.
pub fn most_links() -> usize
    ensures { result ≡ most_links }
{
    MOST_LINKS
}

pub fn filler() -> u8
    ensures { result ≡ filler }
{
    FILLER
}
