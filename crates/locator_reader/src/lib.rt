// Reading a locator at the start of a slice: how many bytes it takes, and what stands there.
#![tactic(auto)]

ghost use Rattle.std.specs.Prelude.{◌≡◌, ◌+◌, ◌<◌, ◌≤◌, length};
ghost use Rattle.wire.specs.Numbers.{be16};
ghost use Rattle.locator.specs.Syntax.{head_length, inline_length, times_length, id_length, component_length};
ghost use Rattle.locator.specs.Reading.{reliable, inline, windows_due, service_end, tail_length, service_at, identifier_at, windows_at, headed_at, cut_off, locator_size, read_locator};

use field::Field;
use locator::reading::LocatorRead;
use locator::{DvbBinaryLocator, DvbLocatorIdentifier, DvbLocatorService, DvbLocatorWindows};
use wire::verdict::Refusal;

fn reliable(head: u16) -> bool
    ensures { result ≡ reliable head }
{
    head / 0x2000 % 2 == 1
}

fn inline(head: u16) -> bool
    ensures { result ≡ inline head }
{
    head / 0x1000 % 2 == 1
}

// A window byte follows exactly if there is no identifier and reliability is set.
fn windows_due(head: u16) -> bool
    ensures { result ≡ windows_due head }
{
    let sure = reliable(head);
    if head / 0x4000 == 0 { sure } else { false }
}

// Where the service ends and the times start.
fn service_end(head: u16) -> usize
    ensures { (result ≡ service_end head) × (result ≤ head_length + inline_length) }
{
    if inline(head) {
        DvbBinaryLocator::HEAD + DvbBinaryLocator::INLINE
    } else {
        DvbBinaryLocator::HEAD + DvbBinaryLocator::TRIPLET
    }
}

// How many bytes follow the times.
fn tail_length(head: u16) -> usize
    ensures { (result ≡ tail_length head) × (result ≤ id_length + component_length) }
{
    if windows_due(head) {
        return DvbBinaryLocator::WINDOWS;
    }
    if head / 0x4000 == 0 {
        return 0;
    }
    if head / 0x4000 == 3 {
        return DvbBinaryLocator::ID + DvbBinaryLocator::COMPONENT;
    }
    DvbBinaryLocator::ID
}

// The 16-bit number at a place.
fn be16_at(s: &[u8], at: usize) -> u16
    requires { at + 1 < length s.now }
    ensures { result ≡ be16 s.now at }
{
    wire::be16(s[at], s[at + 1])
}

fn service_at(s: &[u8], head: u16) -> DvbLocatorService
    requires { service_end head ≤ length s.now }
    ensures { result ≡ service_at s.now head }
{
    if inline(head) {
        DvbLocatorService::with_reserved(
            Field::INLINE_RESERVED.low(head),
            be16_at(s, 2),
            be16_at(s, 4),
            be16_at(s, 6),
        )
    } else {
        DvbLocatorService::Triplet {
            dvb_service_triplet_id: Field::TRIPLET_ID.low(be16_at(s, 1)),
        }
    }
}

fn identifier_at(s: &[u8], head: u16, at: usize) -> DvbLocatorIdentifier
    requires { at + tail_length head ≤ length s.now }
    ensures { result ≡ identifier_at s.now head at }
{
    if head / 0x4000 == 0 {
        return DvbLocatorIdentifier::None;
    }
    let id = be16_at(s, at);
    if head / 0x4000 == 3 {
        return DvbLocatorIdentifier::TvaIdPes {
            tva_id: id,
            component: s[at + DvbBinaryLocator::ID],
        };
    }
    if head / 0x4000 == 1 {
        return DvbLocatorIdentifier::EventId { event_id: id };
    }
    DvbLocatorIdentifier::TvaIdEit { tva_id: id }
}

fn windows_at(s: &[u8], head: u16, at: usize) -> Option<DvbLocatorWindows>
    requires { at + tail_length head ≤ length s.now }
    ensures { result ≡ windows_at s.now head at }
{
    if windows_due(head) {
        let both = s[at] as u16;
        Some(DvbLocatorWindows {
            early_start_window: Field::EARLY_START.low(both / 32),
            late_end_window: Field::LATE_END.low(both),
        })
    } else {
        None
    }
}

// The locator of enough bytes, whose times start at `at`.
fn locator_at(s: &[u8], head: u16, at: usize) -> DvbBinaryLocator
    requires { (service_end head ≤ at) × (at + times_length + tail_length head ≤ length s.now) × (at ≤ head_length + inline_length) }
    ensures { result ≡ headed_at s.now head at }
{
    DvbBinaryLocator::with_reserved(
        reliable(head),
        Field::LOCATOR_RESERVED.low(head / 0x800),
        Field::START_DATE.low(head / 4),
        service_at(s, head),
        be16_at(s, at),
        be16_at(s, at + 2),
        identifier_at(s, head, at + DvbBinaryLocator::TIMES),
        windows_at(s, head, at + DvbBinaryLocator::TIMES),
    )
}

// Refusal 10: cut off.
fn cut(need: usize, have: usize) -> Refusal
    ensures { result ≡ cut_off need have }
{
    Refusal {
        number: Refusal::LOCATOR_CUT,
        first: need,
        second: have,
    }
}

// How many bytes the locator takes that the slice starts with. What follows it is not looked at.
pub fn locator_size(s: &[u8]) -> Result<usize, Refusal>
    ensures { result ≡ locator_size s.now }
{
    let have = s.len();
    if have < DvbBinaryLocator::HEAD {
        return Err(cut(DvbBinaryLocator::HEAD, have));
    }
    let head = be16_at(s, 0);
    let at = service_end(head);
    if have < at {
        return Err(cut(at, have));
    }
    let tail = at + DvbBinaryLocator::TIMES;
    if have < tail {
        return Err(cut(tail, have));
    }
    let used = tail + tail_length(head);
    if have < used {
        return Err(cut(used, have));
    }
    Ok(used)
}

// Reads the locator that the slice starts with.
pub fn read_locator(s: &[u8]) -> Result<LocatorRead, Refusal>
    ensures { result ≡ read_locator s.now }
{
    let used = locator_size(s)?;
    let head = be16_at(s, 0);
    Ok(LocatorRead {
        locator: locator_at(s, head, service_end(head)),
        used,
    })
}
