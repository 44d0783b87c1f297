// What the numbers of a link's type stand for (ETSI TS 102 323, 10.4.3, Table 111), and the way back.
#![tactic(auto)]

pub mod link_type;

// The numbers of a class: the first and the last of them.
#[derive(Drop)]
pub struct Numbers {
    pub first: u16,
    pub last: u16,
}
