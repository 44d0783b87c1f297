// What the reading of a link's body answers.
use crate::{LinkFields, LinkItem};

// A link without its items: its fields and the place of its first item.
#[derive(Drop)]
pub struct FieldsRead {
    pub fields: LinkFields,
    pub items_at: u32,
}

// An item by its place, and the place behind it: both have the 32 bits of a range.
#[derive(Drop)]
pub struct ItemStep {
    pub item: LinkItem,
    pub next: u32,
}
