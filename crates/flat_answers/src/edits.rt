// Edits, and the index beside a section.
ghost use Rattle.std.specs.Prelude.{◌≡◌};
ghost use Rattle.flat_answers.specs.Edits.{edit_answer, index_answer, index_edit_answer};

use flat_refusal::fine;
use rct_index::{IndexEdited, RctIndex};
use wire::verdict::Refusal;

// The total of the new section.
#[repr(C)]
#[derive(Drop)]
pub struct EditAnswer {
    pub refusal: Refusal,
    pub total: usize,
}

#[repr(C)]
#[derive(Drop)]
pub struct IndexAnswer {
    pub refusal: Refusal,
    pub index: RctIndex,
}

// The total of the new section, and the index as it is then.
#[repr(C)]
#[derive(Drop)]
pub struct IndexEditAnswer {
    pub refusal: Refusal,
    pub total: usize,
    pub index: RctIndex,
}

impl EditAnswer {
    pub fn of(edited: Result<usize, Refusal>) -> EditAnswer
        ensures { result ≡ edit_answer edited }
    {
        match edited {
            Ok(total) => EditAnswer {
                refusal: fine(),
                total,
            },
            Err(refusal) => EditAnswer { refusal, total: 0 },
        }
    }
}

impl IndexAnswer {
    // Each arm returns, as those of `EntryAnswer::of` do: merged, the index takes its place on the stack twice.
    pub fn of(built: Result<RctIndex, Refusal>) -> IndexAnswer
        ensures { result ≡ index_answer built }
    {
        match built {
            Ok(index) => {
                return IndexAnswer {
                    refusal: fine(),
                    index,
                };
            }
            Err(r) => {
                return IndexAnswer {
                    refusal: r,
                    index: RctIndex::none(),
                };
            }
        }
    }
}

impl IndexEditAnswer {
    pub fn of(edited: IndexEdited) -> IndexEditAnswer
        ensures { result ≡ index_edit_answer edited }
    {
        let index = edited.index;
        let edit = EditAnswer::of(edited.edited);
        IndexEditAnswer {
            refusal: edit.refusal,
            total: edit.total,
            index,
        }
    }
}
