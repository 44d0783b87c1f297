// The library's calls by names that a C program can call, built by `rt lib` in this folder. A slice is a pointer and a number of
// bytes; records go in and out by value and hold numbers alone.
#![tactic(auto)]

ghost use Rattle.std.specs.Prelude.{◌≡◌};
ghost use Rattle.crc.specs.Crc.{crc_of};
ghost use Rattle.eallunsa.specs.Version.{released};

pub mod edits;
pub mod indexing;
pub mod related;
pub mod resolution;

// The version of the calls and of their records.
#[repr(C)]
#[derive(Drop)]
pub struct Version {
    pub major: u16,
    pub minor: u16,
    pub patch: u16,
}

#[unsafe(no_mangle)]
pub extern "C" fn eallunsa_version() -> Version
    ensures { result ≡ released }
{
    Version {
        major: 0,
        minor: 6,
        patch: 0,
    }
}

// The CRC of ISO/IEC 13818-1.
#[unsafe(no_mangle)]
pub extern "C" fn eallunsa_crc(s: &[u8]) -> u32
    ensures { result ≡ crc_of s.now }
{
    crc_words::crc32(s)
}
