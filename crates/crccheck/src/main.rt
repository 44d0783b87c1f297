// Runs the CRC over the nine ASCII digits of its published check value, and over them with that value behind them.
#![tactic(auto)]

use std::io;

// Writes a line: the name of some bytes, and their CRC.
fn show(rt: &impl Print, name: &str, s: &[u8]) -> io::Result<()> {
    let crc = crc_words::crc32(s);
    println!(rt; "crc of {name}: {crc:08x}")
}

fn main(rt: HostRuntime) -> io::Result<()> {
    show(&rt, "\"123456789\"", b"123456789")?;
    show(
        &rt,
        "\"123456789\" and its crc",
        b"123456789\x03\x76\xE6\xE7",
    )
}
