// The rows of docs/REFUSALS.md's two tables as the code has them: the numbers and the fields, and their names in the same order.
// Each is an array of plain numbers: of one of records every look-up would take seconds to prove.
use field::Field;
use wire::verdict::Refusal;

// How many rows the two tables have.
pub const NUMBER_COUNT: usize = 37;

pub const FIELD_COUNT: usize = 24;

// How many characters a name of the code has. Dots fill it up.
const NAME: usize = 24;

const NUMBERS: [u8; NUMBER_COUNT] = [
    Refusal::TOO_SHORT,
    Refusal::NOT_RCT,
    Refusal::WRONG_LENGTH,
    Refusal::ENTRY_CUT,
    Refusal::LINK_TOO_LONG,
    Refusal::BODY_TOO_SHORT,
    Refusal::URI_LENGTH_CUT,
    Refusal::URI_CUT,
    Refusal::NO_LOCATOR,
    Refusal::LOCATOR_CUT,
    Refusal::ITEM_COUNT_CUT,
    Refusal::ITEM_CUT,
    Refusal::TEXT_CUT,
    Refusal::ICON_CUT,
    Refusal::DESCRIPTORS_TOO_LONG,
    Refusal::LINK_SLACK,
    Refusal::LOOP_CUT,
    Refusal::LOOP_TOO_LONG,
    Refusal::SECTION_SLACK,
    Refusal::WRONG_CRC,
    Refusal::NO_SUCH_NUMBER,
    Refusal::TOO_WIDE,
    Refusal::AGAINST_TYPE,
    Refusal::AGAINST_RULE,
    Refusal::PAST_TEXT,
    Refusal::SECTION_TOO_LONG,
    Refusal::NO_ROOM,
    Refusal::NO_MORE_LINKS,
    Refusal::NO_SYNTAX_INDICATOR,
    Refusal::DESCRIPTOR_CUT,
    Refusal::NOT_RNT,
    Refusal::COMMON_TOO_LONG,
    Refusal::PROVIDER_CUT,
    Refusal::PROVIDER_TOO_LONG,
    Refusal::PROVIDER_NAME_CUT,
    Refusal::PROVIDER_DESCRIPTORS_CUT,
    Refusal::AUTHORITY_CUT,
];

pub const NUMBER_NAMES: [u8; NUMBER_COUNT * NAME] = *b"\
    TOO_SHORT...............\
    NOT_RCT.................\
    WRONG_LENGTH............\
    ENTRY_CUT...............\
    LINK_TOO_LONG...........\
    BODY_TOO_SHORT..........\
    URI_LENGTH_CUT..........\
    URI_CUT.................\
    NO_LOCATOR..............\
    LOCATOR_CUT.............\
    ITEM_COUNT_CUT..........\
    ITEM_CUT................\
    TEXT_CUT................\
    ICON_CUT................\
    DESCRIPTORS_TOO_LONG....\
    LINK_SLACK..............\
    LOOP_CUT................\
    LOOP_TOO_LONG...........\
    SECTION_SLACK...........\
    WRONG_CRC...............\
    NO_SUCH_NUMBER..........\
    TOO_WIDE................\
    AGAINST_TYPE............\
    AGAINST_RULE............\
    PAST_TEXT...............\
    SECTION_TOO_LONG........\
    NO_ROOM.................\
    NO_MORE_LINKS...........\
    NO_SYNTAX_INDICATOR.....\
    DESCRIPTOR_CUT..........\
    NOT_RNT.................\
    COMMON_TOO_LONG.........\
    PROVIDER_CUT............\
    PROVIDER_TOO_LONG.......\
    PROVIDER_NAME_CUT.......\
    PROVIDER_DESCRIPTORS_CUT\
    AUTHORITY_CUT...........";

const RANKS: [usize; FIELD_COUNT] = [
    Field::HOW_RELATED.rank,
    Field::TERM_ID.rank,
    Field::LINK_TYPE.rank,
    Field::LINK_TYPE_RESERVED.rank,
    Field::GROUP_ID.rank,
    Field::PRECEDENCE.rank,
    Field::URI_LENGTH.rank,
    Field::START_DATE.rank,
    Field::LOCATOR_RESERVED.rank,
    Field::TRIPLET_ID.rank,
    Field::INLINE_RESERVED.rank,
    Field::EARLY_START.rank,
    Field::LATE_END.rank,
    Field::NUMBER_ITEMS.rank,
    Field::NUMBER_ITEMS_RESERVED.rank,
    Field::TEXT_LENGTH.rank,
    Field::DESCRIPTOR_LENGTH.rank,
    Field::ICON_ID.rank,
    Field::LINK_LENGTH_RESERVED.rank,
    Field::SECTION_RESERVED.rank,
    Field::VERSION_NUMBER.rank,
    Field::VERSION_RESERVED.rank,
    Field::LOOP_LENGTH.rank,
    Field::LOOP_LENGTH_RESERVED.rank,
];

const WIDESTS: [usize; FIELD_COUNT] = [
    Field::HOW_RELATED.widest,
    Field::TERM_ID.widest,
    Field::LINK_TYPE.widest,
    Field::LINK_TYPE_RESERVED.widest,
    Field::GROUP_ID.widest,
    Field::PRECEDENCE.widest,
    Field::URI_LENGTH.widest,
    Field::START_DATE.widest,
    Field::LOCATOR_RESERVED.widest,
    Field::TRIPLET_ID.widest,
    Field::INLINE_RESERVED.widest,
    Field::EARLY_START.widest,
    Field::LATE_END.widest,
    Field::NUMBER_ITEMS.widest,
    Field::NUMBER_ITEMS_RESERVED.widest,
    Field::TEXT_LENGTH.widest,
    Field::DESCRIPTOR_LENGTH.widest,
    Field::ICON_ID.widest,
    Field::LINK_LENGTH_RESERVED.widest,
    Field::SECTION_RESERVED.widest,
    Field::VERSION_NUMBER.widest,
    Field::VERSION_RESERVED.widest,
    Field::LOOP_LENGTH.widest,
    Field::LOOP_LENGTH_RESERVED.widest,
];

pub const FIELD_NAMES: [u8; FIELD_COUNT * NAME] = *b"\
    HOW_RELATED.............\
    TERM_ID.................\
    LINK_TYPE...............\
    LINK_TYPE_RESERVED......\
    GROUP_ID................\
    PRECEDENCE..............\
    URI_LENGTH..............\
    START_DATE..............\
    LOCATOR_RESERVED........\
    TRIPLET_ID..............\
    INLINE_RESERVED.........\
    EARLY_START.............\
    LATE_END................\
    NUMBER_ITEMS............\
    NUMBER_ITEMS_RESERVED...\
    TEXT_LENGTH.............\
    DESCRIPTOR_LENGTH.......\
    ICON_ID.................\
    LINK_LENGTH_RESERVED....\
    SECTION_RESERVED........\
    VERSION_NUMBER..........\
    VERSION_RESERVED........\
    LOOP_LENGTH.............\
    LOOP_LENGTH_RESERVED....";

// A number and a field by its row. Behind the last one it is what no page has.
pub fn number_at(i: usize) -> u8 {
    if NUMBER_COUNT <= i {
        return 0;
    }
    let all = NUMBERS;
    all[i]
}

pub fn field_at(i: usize) -> Field {
    if FIELD_COUNT <= i {
        return Field { rank: 0, widest: 0 };
    }
    let ranks = RANKS;
    let widests = WIDESTS;
    Field {
        rank: ranks[i],
        widest: widests[i],
    }
}

// The name of a row among those of its table.
pub fn name_at(names: &[u8], i: usize) -> &[u8] {
    if names.len() / NAME <= i {
        return &names[..0];
    }
    &names[i * NAME..i * NAME + NAME]
}
