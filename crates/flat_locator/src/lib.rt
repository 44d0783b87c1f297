// A locator's record as numbers alone, for a caller that has no enums. What may be absent stands beside a number: 0 says absent,
// anything else present. A record that is made here says 1, and has zeros in what is absent.
#![tactic(auto)]

ghost use Rattle.std.specs.Prelude.{◌≡◌};
ghost use Rattle.flat_locator.specs.Flags.{is_set};
ghost use Rattle.flat_locator.specs.Locators.{service_flat, service_of, identifier_flat, identifier_of, windows_flat, windows_of, locator_flat, locator_of};

use locator::{DvbBinaryLocator, DvbLocatorIdentifier, DvbLocatorService, DvbLocatorWindows};

// `inline_service` 0: the short id that stands for a service; anything else: its three ids and the two bits beside them.
#[repr(C)]
#[derive(Clone, Copy)]
pub struct FlatService {
    pub inline_service: u8,
    pub dvb_service_triplet_id: u16,
    pub reserved_inline_service: u16,
    pub transport_stream_id: u16,
    pub original_network_id: u16,
    pub service_id: u16,
}

// `identifier_type` as its two bits tell: 0 none, 1 an event_id, 2 a TVA_id in the EIT, and from 3 on a TVA_id and a component.
#[repr(C)]
#[derive(Clone, Copy)]
pub struct FlatIdentifier {
    pub identifier_type: u8,
    pub component: u8,
    pub id: u16,
}

#[repr(C)]
#[derive(Clone, Copy)]
pub struct FlatWindows {
    pub present: u8,
    pub early_start_window: u16,
    pub late_end_window: u16,
}

#[repr(C)]
#[derive(Clone, Copy)]
pub struct FlatLocator {
    pub scheduled_time_reliability: u8,
    pub reserved: u16,
    pub start_date: u16,
    pub service: FlatService,
    pub start_time: u16,
    pub duration: u16,
    pub identifier: FlatIdentifier,
    pub windows: FlatWindows,
}

// A number as a flag: 0 is no, anything else is yes.
pub fn is_set(x: u8) -> bool
    ensures { result ≡ is_set x }
{
    0 < x
}

impl FlatService {
    pub fn of(service: DvbLocatorService) -> FlatService
        ensures { result ≡ service_flat service }
    {
        match service {
            DvbLocatorService::Triplet {
                dvb_service_triplet_id,
            } => FlatService {
                inline_service: 0,
                dvb_service_triplet_id,
                reserved_inline_service: 0,
                transport_stream_id: 0,
                original_network_id: 0,
                service_id: 0,
            },
            DvbLocatorService::Full {
                reserved_inline_service,
                transport_stream_id,
                original_network_id,
                service_id,
            } => FlatService {
                inline_service: 1,
                dvb_service_triplet_id: 0,
                reserved_inline_service,
                transport_stream_id,
                original_network_id,
                service_id,
            },
        }
    }

    pub fn service(self) -> DvbLocatorService
        ensures { result ≡ service_of self }
    {
        if is_set(self.inline_service) {
            return DvbLocatorService::Full {
                reserved_inline_service: self.reserved_inline_service,
                transport_stream_id: self.transport_stream_id,
                original_network_id: self.original_network_id,
                service_id: self.service_id,
            };
        }
        DvbLocatorService::Triplet {
            dvb_service_triplet_id: self.dvb_service_triplet_id,
        }
    }
}

impl FlatIdentifier {
    pub fn of(identifier: DvbLocatorIdentifier) -> FlatIdentifier
        ensures { result ≡ identifier_flat identifier }
    {
        match identifier {
            DvbLocatorIdentifier::None => FlatIdentifier {
                identifier_type: 0,
                component: 0,
                id: 0,
            },
            DvbLocatorIdentifier::EventId { event_id } => FlatIdentifier {
                identifier_type: 1,
                component: 0,
                id: event_id,
            },
            DvbLocatorIdentifier::TvaIdEit { tva_id } => FlatIdentifier {
                identifier_type: 2,
                component: 0,
                id: tva_id,
            },
            DvbLocatorIdentifier::TvaIdPes { tva_id, component } => FlatIdentifier {
                identifier_type: 3,
                component,
                id: tva_id,
            },
        }
    }

    pub fn identifier(self) -> DvbLocatorIdentifier
        ensures { result ≡ identifier_of self }
    {
        let kind = self.identifier_type;
        match kind {
            0 => DvbLocatorIdentifier::None,
            1 => DvbLocatorIdentifier::EventId { event_id: self.id },
            2 => DvbLocatorIdentifier::TvaIdEit { tva_id: self.id },
            _ => DvbLocatorIdentifier::TvaIdPes {
                tva_id: self.id,
                component: self.component,
            },
        }
    }
}

impl FlatWindows {
    pub fn of(windows: Option<DvbLocatorWindows>) -> FlatWindows
        ensures { result ≡ windows_flat windows }
    {
        match windows {
            None => FlatWindows {
                present: 0,
                early_start_window: 0,
                late_end_window: 0,
            },
            Some(
                DvbLocatorWindows {
                    early_start_window,
                    late_end_window,
                },
            ) => FlatWindows {
                present: 1,
                early_start_window,
                late_end_window,
            },
        }
    }

    pub fn windows(self) -> Option<DvbLocatorWindows>
        ensures { result ≡ windows_of self }
    {
        if is_set(self.present) {
            return Some(DvbLocatorWindows {
                early_start_window: self.early_start_window,
                late_end_window: self.late_end_window,
            });
        }
        None
    }
}

impl FlatLocator {
    pub fn of(locator: DvbBinaryLocator) -> FlatLocator
        ensures { result ≡ locator_flat locator }
    {
        let service = locator.service;
        let identifier = locator.identifier;
        let windows = locator.windows;
        FlatLocator {
            scheduled_time_reliability: wire::flag(locator.scheduled_time_reliability),
            reserved: locator.reserved,
            start_date: locator.start_date,
            service: FlatService::of(service),
            start_time: locator.start_time,
            duration: locator.duration,
            identifier: FlatIdentifier::of(identifier),
            windows: FlatWindows::of(windows),
        }
    }

    pub fn locator(self) -> DvbBinaryLocator
        ensures { result ≡ locator_of self }
    {
        let service = self.service;
        let identifier = self.identifier;
        let windows = self.windows;
        DvbBinaryLocator {
            scheduled_time_reliability: is_set(self.scheduled_time_reliability),
            reserved: self.reserved,
            start_date: self.start_date,
            service: service.service(),
            start_time: self.start_time,
            duration: self.duration,
            identifier: identifier.identifier(),
            windows: windows.windows(),
        }
    }
}
