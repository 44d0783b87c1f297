// The fields that refusal 22 names (docs/REFUSALS.md): what each is, its rank in that list, and its widest number, stated once
// for readers and writers of every layer. The list calls the rank the field's place; here a place is always one among bytes.
#![tactic(auto)]

ghost use Rattle.std.specs.Prelude.{◌≡◌};
ghost use Rattle.field.specs.Fields.{ranked, check_field, low};

use length_field::LengthField;
use wire::verdict::Refusal;

// A field's kind: its rank in the list, where its constant says what it is, and its widest number.
#[derive(Clone, Copy)]
pub struct Field {
    pub rank: usize,
    pub widest: usize,
}

// The widest number of the 16 bits that a reader takes a field from.
const ALL_OF_16_BITS: usize = 0xFFFF;

// How many fields the list has: its last rank.
const LAST_RANK: usize = 24;

// The list, ranks 1 to 24.
const LIST: [Field; LAST_RANK] = [
    Field::HOW_RELATED,
    Field::TERM_ID,
    Field::LINK_TYPE,
    Field::LINK_TYPE_RESERVED,
    Field::GROUP_ID,
    Field::PRECEDENCE,
    Field::URI_LENGTH,
    Field::START_DATE,
    Field::LOCATOR_RESERVED,
    Field::TRIPLET_ID,
    Field::INLINE_RESERVED,
    Field::EARLY_START,
    Field::LATE_END,
    Field::NUMBER_ITEMS,
    Field::NUMBER_ITEMS_RESERVED,
    Field::TEXT_LENGTH,
    Field::DESCRIPTOR_LENGTH,
    Field::ICON_ID,
    Field::LINK_LENGTH_RESERVED,
    Field::SECTION_RESERVED,
    Field::VERSION_NUMBER,
    Field::VERSION_RESERVED,
    Field::LOOP_LENGTH,
    Field::LOOP_LENGTH_RESERVED,
];

impl Field {
    pub const HOW_RELATED: Field = Field {
        rank: 1,
        widest: 63,
    };

    pub const TERM_ID: Field = Field {
        rank: 2,
        widest: 4095,
    };

    pub const LINK_TYPE: Field = Field {
        rank: 3,
        widest: 15,
    };

    pub const LINK_TYPE_RESERVED: Field = Field { rank: 4, widest: 3 };

    pub const GROUP_ID: Field = Field {
        rank: 5,
        widest: 15,
    };

    pub const PRECEDENCE: Field = Field {
        rank: 6,
        widest: 15,
    };

    pub const URI_LENGTH: Field = Field {
        rank: 7,
        widest: 255,
    };

    pub const START_DATE: Field = Field {
        rank: 8,
        widest: 511,
    };

    pub const LOCATOR_RESERVED: Field = Field { rank: 9, widest: 1 };

    pub const TRIPLET_ID: Field = Field {
        rank: 10,
        widest: 1023,
    };

    pub const INLINE_RESERVED: Field = Field {
        rank: 11,
        widest: 3,
    };

    pub const EARLY_START: Field = Field {
        rank: 12,
        widest: 7,
    };

    pub const LATE_END: Field = Field {
        rank: 13,
        widest: 31,
    };

    pub const NUMBER_ITEMS: Field = Field {
        rank: 14,
        widest: 63,
    };

    pub const NUMBER_ITEMS_RESERVED: Field = Field {
        rank: 15,
        widest: 3,
    };

    pub const TEXT_LENGTH: Field = Field {
        rank: 16,
        widest: 255,
    };

    pub const DESCRIPTOR_LENGTH: Field = Field {
        rank: 17,
        widest: LengthField::LONGEST,
    };

    pub const ICON_ID: Field = Field {
        rank: 18,
        widest: 7,
    };

    pub const LINK_LENGTH_RESERVED: Field = Field {
        rank: 19,
        widest: LengthField::WIDEST_BESIDE,
    };

    pub const SECTION_RESERVED: Field = Field {
        rank: 20,
        widest: 3,
    };

    pub const VERSION_NUMBER: Field = Field {
        rank: 21,
        widest: 31,
    };

    pub const VERSION_RESERVED: Field = Field {
        rank: 22,
        widest: 3,
    };

    pub const LOOP_LENGTH: Field = Field {
        rank: 23,
        widest: LengthField::LONGEST,
    };

    pub const LOOP_LENGTH_RESERVED: Field = Field {
        rank: 24,
        widest: LengthField::WIDEST_BESIDE,
    };

    // The field of a rank in the list.
    pub fn of_rank(rank: usize) -> Option<Field>
        ensures { result ≡ ranked rank }
    {
        if rank == 0 {
            return None;
        }
        let i = rank - 1;
        if LAST_RANK <= i {
            return None;
        }
        let all = LIST;
        let field = all[i];
        Some(field)
    }

    // Refusal 22, with the rank and the number, if the number is too wide for the field.
    pub fn check(self, number: usize) -> Result<(), Refusal>
        ensures { result ≡ check_field self number }
    {
        if self.widest < number {
            return Err(Refusal {
                number: Refusal::TOO_WIDE,
                first: self.rank,
                second: number,
            });
        }
        Ok(())
    }

    // The lowest bits of a number, as many as the field has: what a reader takes of the bits that a field ends. The test is
    // of the field alone, so that of a constant field nothing of it is left in the compiled code.
    pub fn low(self, number: u16) -> u16
        ensures { result ≡ low self number }
    {
        if ALL_OF_16_BITS <= self.widest {
            return number;
        }
        ((number as usize) % (self.widest + 1)) as u16
    }
}
