// Walking over a related content section, by what a reading demands: the places of its links and of its loop.
#![tactic(auto)]

pub mod walk;

// Where the entry of a link starts and ends. At the number of links it is the empty span where the next one would go.
#[derive(Drop)]
pub struct LinkSpan {
    pub start: usize,
    pub end: usize,
}

// The bytes of the section, the number of its links, the span of the one that was asked for, and the place of its loop.
// Total and count stand apart: two words that are stored one by one and read as one make the processor wait.
#[derive(Drop)]
pub struct RctPlaces {
    pub total: usize,
    pub link: Option<LinkSpan>,
    pub count: usize,
    pub loop_at: usize,
}

// Of the whole section: its bytes, the number of its links, and the place of its loop.
#[derive(Drop)]
pub struct RctLoop {
    pub total: usize,
    pub count: usize,
    pub loop_at: usize,
}
