// The link types of Table 111.
ghost use Rattle.std.specs.Prelude.{◌≡◌};
ghost use Rattle.link_names.specs.Types.{type_number, type_numbers, type_of};

use crate::Numbers;
use field::Field;

#[derive(Clone, Copy)]
pub enum LinkType {
    UriString,
    BinaryLocator,
    Both,
    Descriptor,
    DvbReserved(u16),
}

const URI_STRING: u16 = 0;

const BINARY_LOCATOR: u16 = 1;

const BOTH: u16 = 2;

const DESCRIPTOR: u16 = 3;

const FIRST_RESERVED: u16 = 4;

const LAST: u16 = Field::LINK_TYPE.widest as u16;

impl LinkType {
    pub fn of_number(number: u16) -> Option<LinkType>
        ensures { result ≡ type_of number }
    {
        match number {
            URI_STRING => Some(LinkType::UriString),
            BINARY_LOCATOR => Some(LinkType::BinaryLocator),
            BOTH => Some(LinkType::Both),
            DESCRIPTOR => Some(LinkType::Descriptor),
            _ => {
                if LAST < number {
                    return None;
                }
                Some(LinkType::DvbReserved(number))
            }
        }
    }

    // The number that a type has; a reserved one carries it.
    pub fn to_number(self) -> u16
        ensures { result ≡ type_number self }
    {
        match self {
            LinkType::UriString => URI_STRING,
            LinkType::BinaryLocator => BINARY_LOCATOR,
            LinkType::Both => BOTH,
            LinkType::Descriptor => DESCRIPTOR,
            LinkType::DvbReserved(number) => number,
        }
    }

    // All numbers of a type's class, whichever of them a reserved one carries.
    pub fn numbers(self) -> Numbers
        ensures { result ≡ type_numbers self }
    {
        match self {
            LinkType::UriString => Numbers {
                first: URI_STRING,
                last: URI_STRING,
            },
            LinkType::BinaryLocator => Numbers {
                first: BINARY_LOCATOR,
                last: BINARY_LOCATOR,
            },
            LinkType::Both => Numbers {
                first: BOTH,
                last: BOTH,
            },
            LinkType::Descriptor => Numbers {
                first: DESCRIPTOR,
                last: DESCRIPTOR,
            },
            LinkType::DvbReserved(_) => Numbers {
                first: FIRST_RESERVED,
                last: LAST,
            },
        }
    }
}
