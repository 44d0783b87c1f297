// Links and items, by number and by place.
ghost use Rattle.std.specs.Prelude.{◌≡◌};
ghost use Rattle.flat_answers.specs.Links.{link_answer, item_answer, step_answer, entry_answer};

use flat_link::{FlatFields, FlatLink};
use flat_refusal::fine;
use link::reading::ItemStep;
use link::{LinkFields, LinkInfo, LinkItem};
use rct_entries::EntryRead;
use wire::verdict::Refusal;

#[repr(C)]
#[derive(Drop)]
pub struct LinkAnswer {
    pub refusal: Refusal,
    pub link: FlatLink,
}

#[repr(C)]
#[derive(Drop)]
pub struct ItemAnswer {
    pub refusal: Refusal,
    pub item: LinkItem,
}

// An item, and the place behind it.
#[repr(C)]
#[derive(Drop)]
pub struct StepAnswer {
    pub refusal: Refusal,
    pub item: LinkItem,
    pub next: u32,
}

// A link without its items, the place of its first item, and the place behind its entry.
#[repr(C)]
#[derive(Drop)]
pub struct EntryAnswer {
    pub refusal: Refusal,
    pub fields: FlatFields,
    pub items_at: u32,
    pub next: u16,
}

impl LinkAnswer {
    // Each arm returns, as those of `EntryAnswer::of` do: merged, the record is copied once more.
    pub fn of(read: Result<LinkInfo, Refusal>) -> LinkAnswer
        ensures { result ≡ link_answer read }
    {
        match read {
            Ok(link) => {
                return LinkAnswer {
                    refusal: fine(),
                    link: FlatLink::of(link),
                };
            }
            Err(refusal) => {
                return LinkAnswer {
                    refusal,
                    link: FlatLink::of(LinkInfo::none()),
                };
            }
        }
    }
}

impl ItemAnswer {
    pub fn of(read: Result<LinkItem, Refusal>) -> ItemAnswer
        ensures { result ≡ item_answer read }
    {
        match read {
            Ok(item) => ItemAnswer {
                refusal: fine(),
                item,
            },
            Err(refusal) => ItemAnswer {
                refusal,
                item: LinkItem::none(),
            },
        }
    }
}

impl StepAnswer {
    pub fn of(read: Result<ItemStep, Refusal>) -> StepAnswer
        ensures { result ≡ step_answer read }
    {
        match read {
            Ok(ItemStep { item, next }) => StepAnswer {
                refusal: fine(),
                item,
                next,
            },
            Err(refusal) => StepAnswer {
                refusal,
                item: LinkItem::none(),
                next: 0,
            },
        }
    }
}

impl EntryAnswer {
    // Each arm returns, so that its answer is stored where the caller wants it and is not merged with the other's.
    pub fn of(read: Result<EntryRead, Refusal>) -> EntryAnswer
        ensures { result ≡ entry_answer read }
    {
        match read {
            Ok(
                EntryRead {
                    fields,
                    items_at,
                    next,
                },
            ) => {
                return EntryAnswer {
                    refusal: fine(),
                    fields: FlatFields::of(fields),
                    items_at,
                    next,
                };
            }
            Err(refusal) => {
                return EntryAnswer {
                    refusal,
                    fields: FlatFields::of(LinkFields::none()),
                    items_at: 0,
                    next: 0,
                };
            }
        }
    }
}
