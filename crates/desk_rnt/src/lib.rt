// The calls of a script that read a resolution notification section: rnt, rntchecked, prov and auth. What is promised of
// this crate is that it traps on nothing and ends; the gate runs it on stored input with rctdesk.
#![tactic(auto)]

mod words;

use console::Short;
use rnt::ResolutionProvider;
use rnt_counts::{count_authorities, places_of};
use rnt_entries::AuthorityFound;
use rnt_reader::RntSection;
use script::calls::{NUMBER, NUMBERS, Stop, call_of, put_start};
use script::read::read_short;
use script::scan::Scan;
use std::io;
use words::{put_authority, put_provider, put_section};

// The calls of this crate.
#[derive(Clone, Copy)]
enum Call {
    Plain,
    Checked,
    Provider,
    Authority,
}

const CALLS: [(Short, Call); 4] = [
    (*b"rnt_____________________", Call::Plain),
    (*b"rntchecked______________", Call::Checked),
    (*b"prov____________________", Call::Provider),
    (*b"auth____________________", Call::Authority),
];

// The authority at a place of a provider that ends at `end`. The answer: the place behind it.
fn put_authority_at(rt: &impl Print, s: &[u8], end: u16, at: u16) -> io::Result<u16> {
    let found = rnt_entries::read_authority(s, end, at);
    match found {
        Ok(AuthorityFound { authority, next }) => {
            put_authority(rt, s, authority)?;
            Ok(next)
        }
        Err(_) => Ok(end),
    }
}

// One walk: each record that is printed says where the next one starts.
fn put_each<F: FnMut(u16) -> io::Result<u16>>(
    count: usize,
    first: u16,
    mut put: F,
) -> io::Result<()>
    requires { F.IsAlwaysCallable put }
{
    let mut at = first;
    for _ in 0..count {
        at = put(at)?;
    }
    Ok(())
}

fn put_whole_provider(
    rt: &impl Print,
    s: &[u8],
    provider: ResolutionProvider,
    count: usize,
) -> io::Result<()> {
    put_provider(rt, s, provider, count)?;
    put_each(count, provider.authorities_at, |at| {
        put_authority_at(rt, s, provider.end, at)
    })
}

// The provider at a place of a payload that ends at `end`. The answer: the place behind it.
fn put_provider_at(rt: &impl Print, s: &[u8], end: u16, at: u16) -> io::Result<u16> {
    let found = rnt_entries::read_provider(s, end, at);
    match found {
        Ok(provider) => {
            let count = count_authorities(s, provider.end, provider.authorities_at);
            put_whole_provider(rt, s, provider, count)?;
            Ok(provider.end)
        }
        Err(_) => Ok(end),
    }
}

fn put_whole(rt: &impl Print, s: &[u8], section: RntSection) -> io::Result<()> {
    let places = places_of(section);
    put_section(rt, s, section)?;
    put_each(section.number_of_providers, places.first, |at| {
        put_provider_at(rt, s, places.end, at)
    })
}

fn plain(rt: &impl Print, scan: Scan<'_>, s: &[u8]) -> Result<(), Stop> {
    scan.end()?;
    if let Some(section) = put_start(rt, rnt_reader::read_section(s))? {
        put_whole(rt, s, section)?;
    }
    Ok(())
}

fn checked(rt: &impl Print, scan: Scan<'_>, s: &[u8]) -> Result<(), Stop> {
    scan.end()?;
    if let Some(section) = put_start(rt, rnt_reader::check_section(s))? {
        put_whole(rt, s, section)?;
    }
    Ok(())
}

fn provider(rt: &impl Print, mut scan: Scan<'_>, s: &[u8]) -> Result<(), Stop> {
    let numbers = read_short(&mut scan, NUMBER)?;
    scan.end()?;
    if let Some(read) = put_start(rt, rnt_providers::read_provider(s, numbers[0] as usize))? {
        put_whole_provider(rt, s, read.provider, read.number_of_authorities)?;
    }
    Ok(())
}

fn authority(rt: &impl Print, mut scan: Scan<'_>, s: &[u8]) -> Result<(), Stop> {
    let numbers = read_short(&mut scan, NUMBERS)?;
    scan.end()?;
    let read = rnt_providers::read_authority(s, numbers[0] as usize, numbers[1] as usize);
    if let Some(authority) = put_start(rt, read)? {
        put_authority(rt, s, authority)?;
    }
    Ok(())
}

// Carries out the call that a line has, if it is one of these. The answer: whether it is.
// The crate desk_reads has the same over its own calls: one function for both would be public, take a closure and ask of callers
// that it may be called.
pub fn carry_out(rt: &impl Print, line: &[u8], s: &[u8]) -> Result<bool, Stop> {
    let Some((call, scan)) = call_of(line, &CALLS) else {
        return Ok(false);
    };
    match call {
        Call::Plain => plain(rt, scan, s)?,
        Call::Checked => checked(rt, scan, s)?,
        Call::Provider => provider(rt, scan, s)?,
        Call::Authority => authority(rt, scan, s)?,
    }
    Ok(true)
}
