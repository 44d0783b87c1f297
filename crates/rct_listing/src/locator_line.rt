// The line of a link's locator: its numbers by name, as they are, in the order in which they stand in it.
use console::print::end_line;
use listing::lines::put_field;
use locator::{DvbBinaryLocator, DvbLocatorIdentifier, DvbLocatorService, DvbLocatorWindows};
use std::io;

// The type of an identifier (Table 32). The crate locator_writer has the same for itself alone; a listing does not stand on
// what writes.
fn identifier_type(identifier: DvbLocatorIdentifier) -> usize {
    match identifier {
        DvbLocatorIdentifier::None => 0,
        DvbLocatorIdentifier::EventId { .. } => 1,
        DvbLocatorIdentifier::TvaIdEit { .. } => 2,
        DvbLocatorIdentifier::TvaIdPes { .. } => 3,
    }
}

fn put_service(rt: &impl Print, service: DvbLocatorService) -> io::Result<()> {
    match service {
        DvbLocatorService::Triplet {
            dvb_service_triplet_id,
        } => put_field(rt, b" service_triplet ", dvb_service_triplet_id as usize),
        DvbLocatorService::Full {
            reserved_inline_service: _,
            transport_stream_id,
            original_network_id,
            service_id,
        } => {
            put_field(rt, b" transport_stream ", transport_stream_id as usize)?;
            put_field(rt, b" original_network ", original_network_id as usize)?;
            put_field(rt, b" service ", service_id as usize)
        }
    }
}

fn put_identifier(rt: &impl Print, identifier: DvbLocatorIdentifier) -> io::Result<()> {
    match identifier {
        DvbLocatorIdentifier::None => Ok(()),
        DvbLocatorIdentifier::EventId { event_id } => put_field(rt, b" event ", event_id as usize),
        DvbLocatorIdentifier::TvaIdEit { tva_id } => put_field(rt, b" tva ", tva_id as usize),
        DvbLocatorIdentifier::TvaIdPes { tva_id, component } => {
            put_field(rt, b" tva ", tva_id as usize)?;
            put_field(rt, b" component ", component as usize)
        }
    }
}

fn put_windows(rt: &impl Print, windows: Option<DvbLocatorWindows>) -> io::Result<()> {
    match windows {
        None => Ok(()),
        Some(
            DvbLocatorWindows {
                early_start_window,
                late_end_window,
            },
        ) => {
            put_field(rt, b" early ", early_start_window as usize)?;
            put_field(rt, b" late ", late_end_window as usize)
        }
    }
}

// Reserved bits are not listed. The word `locator` at a line's start is left for another line.
pub(crate) fn put_locator(rt: &impl Print, locator: DvbBinaryLocator) -> io::Result<()> {
    let service = locator.service;
    let identifier = locator.identifier;
    let windows = locator.windows;
    let reliability = locator.scheduled_time_reliability as usize;
    put_field(
        rt,
        b"  binary_locator identifier_type ",
        identifier_type(identifier),
    )?;
    put_field(rt, b" reliability ", reliability)?;
    put_field(rt, b" start_date ", locator.start_date as usize)?;
    put_service(rt, service)?;
    put_field(rt, b" start_time ", locator.start_time as usize)?;
    put_field(rt, b" duration ", locator.duration as usize)?;
    put_identifier(rt, identifier)?;
    put_windows(rt, windows)?;
    end_line(rt)
}
