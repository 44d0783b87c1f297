// The classification schemes of Table 112, by which how_related tells in what way a link's content is related.
#![tactic(auto)]

ghost use Rattle.std.specs.Prelude.{◌≡◌};
ghost use Rattle.scheme_names.specs.Schemes.{scheme_number, scheme_numbers, scheme_of};

use field::Field;
use link_names::Numbers;

#[derive(Clone, Copy)]
pub enum HowRelated {
    Cs2004,
    Cs2005,
    Cs2007,
    DvbReserved(u16),
    UserPrivate(u16),
}

const CS_2004: u16 = 0;

const CS_2005: u16 = 1;

const CS_2007: u16 = 2;

const FIRST_RESERVED: u16 = 3;

const LAST_RESERVED: u16 = 0x2F;

const FIRST_PRIVATE: u16 = LAST_RESERVED + 1;

const LAST: u16 = Field::HOW_RELATED.widest as u16;

impl HowRelated {
    pub fn of_number(number: u16) -> Option<HowRelated>
        ensures { result ≡ scheme_of number }
    {
        match number {
            CS_2004 => Some(HowRelated::Cs2004),
            CS_2005 => Some(HowRelated::Cs2005),
            CS_2007 => Some(HowRelated::Cs2007),
            _ => {
                if number <= LAST_RESERVED {
                    return Some(HowRelated::DvbReserved(number));
                }
                if LAST < number {
                    return None;
                }
                Some(HowRelated::UserPrivate(number))
            }
        }
    }

    // The number that a scheme has; a reserved or private one carries it.
    pub fn to_number(self) -> u16
        ensures { result ≡ scheme_number self }
    {
        match self {
            HowRelated::Cs2004 => CS_2004,
            HowRelated::Cs2005 => CS_2005,
            HowRelated::Cs2007 => CS_2007,
            HowRelated::DvbReserved(number) => number,
            HowRelated::UserPrivate(number) => number,
        }
    }

    // All numbers of a scheme's class, whichever of them a reserved or private one carries.
    pub fn numbers(self) -> Numbers
        ensures { result ≡ scheme_numbers self }
    {
        match self {
            HowRelated::Cs2004 => Numbers {
                first: CS_2004,
                last: CS_2004,
            },
            HowRelated::Cs2005 => Numbers {
                first: CS_2005,
                last: CS_2005,
            },
            HowRelated::Cs2007 => Numbers {
                first: CS_2007,
                last: CS_2007,
            },
            HowRelated::DvbReserved(_) => Numbers {
                first: FIRST_RESERVED,
                last: LAST_RESERVED,
            },
            HowRelated::UserPrivate(_) => Numbers {
                first: FIRST_PRIVATE,
                last: LAST,
            },
        }
    }
}
