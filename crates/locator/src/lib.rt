// The DVB binary locator (ETSI TS 102 323, 7.3.2.3.3, Table 31): what it holds, how many bytes each of its fields takes,
// and how one is made; in a module each, what reading and writing answer.
#![tactic(auto)]

ghost use Rattle.std.specs.Prelude.{◌≡◌};
ghost use Rattle.locator.specs.Syntax.{inline_service, full_service, locator_of, new_locator};

use field::Field;

pub mod reading;
pub mod writing;

// The service: a short id that stands for one, or its three ids, with the two bits that stand beside those.
#[derive(Clone, Copy)]
pub enum DvbLocatorService {
    Triplet {
        dvb_service_triplet_id: u16,
    },
    Full {
        reserved_inline_service: u16,
        transport_stream_id: u16,
        original_network_id: u16,
        service_id: u16,
    },
}

// What names the event, besides its time.
#[derive(Clone, Copy)]
pub enum DvbLocatorIdentifier {
    None,
    EventId { event_id: u16 },
    TvaIdEit { tva_id: u16 },
    TvaIdPes { tva_id: u16, component: u8 },
}

// How much earlier and later than its time the event may be.
#[derive(Clone, Copy)]
pub struct DvbLocatorWindows {
    pub early_start_window: u16,
    pub late_end_window: u16,
}

// A locator. Fields narrower than a byte, and the two of 9 and 10 bits, are carried wide, so that a number too wide for
// one can be handed in and refused.
#[derive(Clone, Copy)]
pub struct DvbBinaryLocator {
    pub scheduled_time_reliability: bool,
    pub reserved: u16,
    pub start_date: u16,
    pub service: DvbLocatorService,
    pub start_time: u16,
    pub duration: u16,
    pub identifier: DvbLocatorIdentifier,
    pub windows: Option<DvbLocatorWindows>,
}

impl DvbLocatorService {
    // A service by its three ids, with the two bits that stand beside them: what a reader makes.
    pub fn with_reserved(
        reserved: u16,
        stream: u16,
        network: u16,
        service: u16,
    ) -> DvbLocatorService
        ensures { result ≡ inline_service reserved stream network service }
    {
        DvbLocatorService::Full {
            reserved_inline_service: reserved,
            transport_stream_id: stream,
            original_network_id: network,
            service_id: service,
        }
    }

    // A service by its three ids; the two bits beside them are ones.
    pub fn full(
        transport_stream_id: u16,
        original_network_id: u16,
        service_id: u16,
    ) -> DvbLocatorService
        ensures { result ≡ full_service transport_stream_id original_network_id service_id }
    {
        DvbLocatorService::with_reserved(
            Field::INLINE_RESERVED.widest as u16,
            transport_stream_id,
            original_network_id,
            service_id,
        )
    }
}

impl DvbBinaryLocator {
    // How many bytes each takes: the head, a service by either way, the two times, an identifier's id and component, the
    // windows.
    pub const HEAD: usize = 2;

    pub const TRIPLET: usize = 1;

    pub const INLINE: usize = 6;

    pub const TIMES: usize = 4;

    pub const ID: usize = 2;

    pub const COMPONENT: usize = 1;

    pub const WINDOWS: usize = 1;

    // The longest: an inline service, an id and a component. There are no windows beside an identifier.
    pub const LONGEST: usize = DvbBinaryLocator::HEAD
        + DvbBinaryLocator::INLINE
        + DvbBinaryLocator::TIMES
        + DvbBinaryLocator::ID
        + DvbBinaryLocator::COMPONENT;

    // The most bytes that are written: of a record with windows beside an identifier, against the rule.
    pub const LONGEST_WRITTEN: usize = DvbBinaryLocator::LONGEST + DvbBinaryLocator::WINDOWS;

    // A locator of all its fields, the reserved bit among them: what a reader makes.
    pub fn with_reserved(
        reliability: bool,
        reserved: u16,
        date: u16,
        service: DvbLocatorService,
        start: u16,
        lasting: u16,
        identifier: DvbLocatorIdentifier,
        windows: Option<DvbLocatorWindows>,
    ) -> DvbBinaryLocator
        ensures { result ≡ locator_of reliability reserved date service start lasting identifier windows }
    {
        DvbBinaryLocator {
            scheduled_time_reliability: reliability,
            reserved,
            start_date: date,
            service,
            start_time: start,
            duration: lasting,
            identifier,
            windows,
        }
    }

    // A locator whose reserved bit is a one.
    pub fn new(
        scheduled_time_reliability: bool,
        start_date: u16,
        service: DvbLocatorService,
        start_time: u16,
        duration: u16,
        identifier: DvbLocatorIdentifier,
        windows: Option<DvbLocatorWindows>,
    ) -> DvbBinaryLocator
        ensures { result ≡ new_locator scheduled_time_reliability start_date service start_time duration identifier windows }
    {
        DvbBinaryLocator::with_reserved(
            scheduled_time_reliability,
            Field::LOCATOR_RESERVED.widest as u16,
            start_date,
            service,
            start_time,
            duration,
            identifier,
            windows,
        )
    }
}
