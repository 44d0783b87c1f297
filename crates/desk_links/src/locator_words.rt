// A locator: short forms side by side, some of them by what is there.
use console::Short;
use console::print::{put_short, say};
use locator::{DvbBinaryLocator, DvbLocatorIdentifier, DvbLocatorService, DvbLocatorWindows};
use script::read::{Numbers, read_short};
use script::scan::{Fault, Scan};
use std::io;

// The identifier's type, the flag of the time's reliability, the reserved bit and the date.
const HEAD: Short = *b"~,?,#,#,________________";

// A service by its short id, or by its reserved bits and three ids.
const TRIPLET: Short = *b"T#______________________";

const FULL: Short = *b"F#.#.#.#________________";

const TIMES: Short = *b",#,#,___________________";

// An identifier: an id, or an id and a component.
const ID: Short = *b"#_______________________";

const ID_COMPONENT: Short = *b"#.%_____________________";

const COMMA: Short = *b",_______________________";

const WINDOWS: Short = *b"#.#_____________________";

// What says that something is absent.
pub const ABSENT: Short = *b"-_______________________";

// The types of identifiers (Table 32).
const NO_ID: u16 = 0;

const EVENT_ID: u16 = 1;

const TVA_ID_EIT: u16 = 2;

const TVA_ID_PES: u16 = 3;

// An identifier as numbers, its type first.
#[derive(Drop)]
struct Identifier {
    kind: u16,
    id: u16,
    component: u8,
}

fn read_service(scan: &mut Scan<'_>) -> Result<DvbLocatorService, Fault> {
    if scan.is_at(b'T') {
        let n = read_short(scan, TRIPLET)?;
        return Ok(DvbLocatorService::Triplet {
            dvb_service_triplet_id: n[0],
        });
    }
    let n = read_short(scan, FULL)?;
    Ok(DvbLocatorService::Full {
        reserved_inline_service: n[0],
        transport_stream_id: n[1],
        original_network_id: n[2],
        service_id: n[3],
    })
}

fn put_service(rt: &impl Print, service: DvbLocatorService) -> io::Result<()> {
    match service {
        DvbLocatorService::Triplet {
            dvb_service_triplet_id,
        } => put_short(rt, TRIPLET, [dvb_service_triplet_id, 0, 0, 0]),
        DvbLocatorService::Full {
            reserved_inline_service,
            transport_stream_id,
            original_network_id,
            service_id,
        } => put_short(
            rt,
            FULL,
            [
                reserved_inline_service,
                transport_stream_id,
                original_network_id,
                service_id,
            ],
        ),
    }
}

fn identifier_form(kind: u16) -> Short {
    match kind {
        NO_ID => ABSENT,
        TVA_ID_PES => ID_COMPONENT,
        _ => ID,
    }
}

fn identifier_of(kind: u16, n: Numbers) -> DvbLocatorIdentifier {
    match kind {
        NO_ID => DvbLocatorIdentifier::None,
        EVENT_ID => DvbLocatorIdentifier::EventId { event_id: n[0] },
        TVA_ID_EIT => DvbLocatorIdentifier::TvaIdEit { tva_id: n[0] },
        _ => DvbLocatorIdentifier::TvaIdPes {
            tva_id: n[0],
            component: (n[1] % 256) as u8,
        },
    }
}

fn identifier_numbers(identifier: DvbLocatorIdentifier) -> Identifier {
    match identifier {
        DvbLocatorIdentifier::None => Identifier {
            kind: NO_ID,
            id: 0,
            component: 0,
        },
        DvbLocatorIdentifier::EventId { event_id } => Identifier {
            kind: EVENT_ID,
            id: event_id,
            component: 0,
        },
        DvbLocatorIdentifier::TvaIdEit { tva_id } => Identifier {
            kind: TVA_ID_EIT,
            id: tva_id,
            component: 0,
        },
        DvbLocatorIdentifier::TvaIdPes { tva_id, component } => Identifier {
            kind: TVA_ID_PES,
            id: tva_id,
            component,
        },
    }
}

// What the line has there, or none where it says that it is absent.
pub(crate) fn read_optional<'a, T, F: FnOnce(&mut Scan<'a>) -> Result<T, Fault>>(
    scan: &mut Scan<'a>,
    read: F,
) -> Result<Option<T>, Fault>
    requires { F.IsAlwaysCallable read }
{
    if scan.is_at(b'-') {
        read_short(scan, ABSENT)?;
        return Ok(None);
    }
    let present = read(scan)?;
    Ok(Some(present))
}

// So it is printed.
pub(crate) fn put_optional<T, F: FnOnce(T) -> io::Result<()>>(
    rt: &impl Print,
    value: Option<T>,
    put: F,
) -> io::Result<()>
    requires { F.IsAlwaysCallable put }
{
    match value {
        None => say(rt, ABSENT),
        Some(present) => put(present),
    }
}

fn read_windows(scan: &mut Scan<'_>) -> Result<DvbLocatorWindows, Fault> {
    let n = read_short(scan, WINDOWS)?;
    Ok(DvbLocatorWindows {
        early_start_window: n[0],
        late_end_window: n[1],
    })
}

fn put_windows(rt: &impl Print, windows: DvbLocatorWindows) -> io::Result<()> {
    let early = windows.early_start_window;
    put_short(rt, WINDOWS, [early, windows.late_end_window, 0, 0])
}

pub fn read_locator(scan: &mut Scan<'_>) -> Result<DvbBinaryLocator, Fault> {
    let head = read_short(scan, HEAD)?;
    let kind = head[0];
    let service = read_service(scan)?;
    let times = read_short(scan, TIMES)?;
    let id = read_short(scan, identifier_form(kind))?;
    read_short(scan, COMMA)?;
    let windows = read_optional(scan, |scan| read_windows(scan))?;
    Ok(DvbBinaryLocator {
        scheduled_time_reliability: head[1] == 1,
        reserved: head[2],
        start_date: head[3],
        service,
        start_time: times[0],
        duration: times[1],
        identifier: identifier_of(kind, id),
        windows,
    })
}

pub fn put_locator(rt: &impl Print, locator: DvbBinaryLocator) -> io::Result<()> {
    let service = locator.service;
    let identifier = locator.identifier;
    let windows = locator.windows;
    let id = identifier_numbers(identifier);
    let reliability = locator.scheduled_time_reliability as u16;
    put_short(
        rt,
        HEAD,
        [id.kind, reliability, locator.reserved, locator.start_date],
    )?;
    put_service(rt, service)?;
    put_short(rt, TIMES, [locator.start_time, locator.duration, 0, 0])?;
    put_short(
        rt,
        identifier_form(id.kind),
        [id.id, id.component as u16, 0, 0],
    )?;
    say(rt, COMMA)?;
    put_optional(rt, windows, |present| put_windows(rt, present))
}
