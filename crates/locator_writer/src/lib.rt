// Writing a locator, by value: its bytes in an array and their number. Nothing is checked: of a number that is too wide for
// its field the lowest bits are written, and windows wherever they are present.
#![tactic(auto)]

ghost use Rattle.std.specs.Prelude.{◌≡◌, ◌+◌, ◌≤◌, length};
ghost use Rattle.wire.specs.Numbers.{bytes16};
ghost use Rattle.byte_stores.specs.Stores.{Wrote};
ghost use Rattle.locator.specs.Syntax.{type_of, is_inline, last_bits, head_of, service_bytes, identifier_bytes, windows_bytes, locator_bytes, locator_length};
ghost use Rattle.locator.specs.Writing.{narrowed_service, narrowed_windows, narrowed, written_locator};

use field::Field;
use locator::writing::LocatorBytes;
use locator::{DvbBinaryLocator, DvbLocatorIdentifier, DvbLocatorService, DvbLocatorWindows};

// The bytes of any record, zeros behind them, and how many they are.
pub fn locator_bytes(locator: DvbBinaryLocator) -> LocatorBytes
    ensures { result ≡ written_locator locator }
{
    let mut bytes = [0u8; DvbBinaryLocator::LONGEST_WRITTEN];
    let length = put_locator(&mut bytes, locator);
    LocatorBytes { bytes, length }
}

fn identifier_type(identifier: DvbLocatorIdentifier) -> u16
    ensures { (result ≡ type_of identifier) × (result ≤ 3) }
{
    match identifier {
        DvbLocatorIdentifier::None => 0,
        DvbLocatorIdentifier::EventId { .. } => 1,
        DvbLocatorIdentifier::TvaIdEit { .. } => 2,
        DvbLocatorIdentifier::TvaIdPes { .. } => 3,
    }
}

fn inline_service(service: DvbLocatorService) -> bool
    ensures { result ≡ is_inline (narrowed_service service) }
{
    match service {
        DvbLocatorService::Triplet { .. } => false,
        DvbLocatorService::Full { .. } => true,
    }
}

// The two bits behind the date.
fn last_bits(service: DvbLocatorService) -> u16
    ensures { (result ≡ last_bits (narrowed_service service)) × (result ≤ 3) }
{
    match service {
        DvbLocatorService::Triplet {
            dvb_service_triplet_id,
        } => Field::TRIPLET_ID.low(dvb_service_triplet_id) / 256,
        DvbLocatorService::Full {
            reserved_inline_service,
            ..
        } => Field::INLINE_RESERVED.low(reserved_inline_service),
    }
}

// The first 16 bits.
fn head(locator: DvbBinaryLocator) -> u16
    ensures { result ≡ head_of (narrowed locator) }
{
    let service = locator.service;
    let identifier = locator.identifier;
    identifier_type(identifier) * 0x4000
        + wire::flag(locator.scheduled_time_reliability) as u16 * 0x2000
        + wire::flag(inline_service(service)) as u16 * 0x1000
        + Field::LOCATOR_RESERVED.low(locator.reserved) * 0x800
        + Field::START_DATE.low(locator.start_date) * 4
        + last_bits(service)
}

// Each of these writes its bytes from a place on, for which the caller has room, and answers the place behind them.
fn put16(b: &mut [u8], at: usize, x: u16) -> usize
    requires { at + 2 ≤ length b.old }
    ensures { Wrote b.old at (bytes16 x) b.new result }
{
    b[at] = (x / 256) as u8;
    b[at + 1] = (x % 256) as u8;
    at + 2
}

fn put_service(b: &mut [u8], at: usize, service: DvbLocatorService) -> usize
    requires { at + length (service_bytes (narrowed_service service)) ≤ length b.old }
    ensures { Wrote b.old at (service_bytes (narrowed_service service)) b.new result }
{
    match service {
        DvbLocatorService::Triplet {
            dvb_service_triplet_id,
        } => {
            b[at] = (dvb_service_triplet_id % 256) as u8;
            at + 1
        }
        DvbLocatorService::Full {
            reserved_inline_service: _,
            transport_stream_id,
            original_network_id,
            service_id,
        } => {
            let network = put16(b, at, transport_stream_id);
            let service = put16(b, network, original_network_id);
            put16(b, service, service_id)
        }
    }
}

fn put_identifier(b: &mut [u8], at: usize, identifier: DvbLocatorIdentifier) -> usize
    requires { at + length (identifier_bytes identifier) ≤ length b.old }
    ensures { Wrote b.old at (identifier_bytes identifier) b.new result }
{
    match identifier {
        DvbLocatorIdentifier::None => at,
        DvbLocatorIdentifier::EventId { event_id } => put16(b, at, event_id),
        DvbLocatorIdentifier::TvaIdEit { tva_id } => put16(b, at, tva_id),
        DvbLocatorIdentifier::TvaIdPes { tva_id, component } => {
            let end = put16(b, at, tva_id);
            b[end] = component;
            end + 1
        }
    }
}

fn put_windows(b: &mut [u8], at: usize, windows: Option<DvbLocatorWindows>) -> usize
    requires { at + length (windows_bytes (narrowed_windows windows)) ≤ length b.old }
    ensures { Wrote b.old at (windows_bytes (narrowed_windows windows)) b.new result }
{
    match windows {
        None => at,
        Some(
            DvbLocatorWindows {
                early_start_window,
                late_end_window,
            },
        ) => {
            let early = Field::EARLY_START.low(early_start_window);
            let late = Field::LATE_END.low(late_end_window);
            b[at] = (early * 32 + late) as u8;
            at + 1
        }
    }
}

fn put_locator(b: &mut [u8], locator: DvbBinaryLocator) -> usize
    requires { locator_length (narrowed locator) ≤ length b.old }
    ensures { Wrote b.old 0 (locator_bytes (narrowed locator)) b.new result }
{
    let service = locator.service;
    let identifier = locator.identifier;
    let windows = locator.windows;
    let at = put16(b, 0, head(locator));
    let start = put_service(b, at, service);
    let duration = put16(b, start, locator.start_time);
    let tail = put16(b, duration, locator.duration);
    let end = put_identifier(b, tail, identifier);
    put_windows(b, end, windows)
}
