// What the numbers of a section stand for, by the names of ETSI TS 102 323, 5.2.2.
use listing::lines::put_last;
use std::io;

// The first context_id_type that is reserved, and the last.
const FIRST_RESERVED: u8 = 3;

const LAST_RESERVED: u8 = 127;

fn put_context(rt: &impl Print, name: &[u8]) -> io::Result<()> {
    put_last(rt, b"  context_type_name ", name)
}

pub(crate) fn put_context_name(rt: &impl Print, context_id_type: u8) -> io::Result<()> {
    match context_id_type {
        0 => put_context(rt, b"bouquet_id"),
        1 => put_context(rt, b"original_network_id"),
        2 => put_context(rt, b"network_id"),
        FIRST_RESERVED..=LAST_RESERVED => put_context(rt, b"DVB reserved"),
        _ => put_context(rt, b"user defined"),
    }
}

fn put_policy(rt: &impl Print, name: &[u8]) -> io::Result<()> {
    put_last(rt, b"  policy_name ", name)
}

pub(crate) fn put_policy_name(rt: &impl Print, crid_authority_policy: u16) -> io::Result<()> {
    match crid_authority_policy {
        0 => put_policy(rt, b"permanent"),
        1 => put_policy(rt, b"transient"),
        2 => put_policy(rt, b"either"),
        _ => put_policy(rt, b"reserved"),
    }
}
