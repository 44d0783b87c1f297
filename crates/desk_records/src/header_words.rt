// What every table's section has in its header. The word of the table_id_extension is the table's own, and so is handed in.
use console::Short;
use console::print::{put, put_number, put_short, say};
use script::read::{read, read_short};
use script::scan::{Fault, Scan};
use section_header::SectionHeader;
use std::io;

const TOTAL: Short = *b" total=_________________";

// What stands before the extension, and behind it.
const FRONT: Short = *b" ssi=? ext=? res1=#_____";

const BACK: [u8; 43] = *b" res5=# version=# current=? number=% last=%";

// A section to be made has no total yet.
pub fn read_header(scan: &mut Scan<'_>, extension: Short) -> Result<SectionHeader, Fault> {
    let front = read_short(scan, FRONT)?;
    let own = read_short(scan, extension)?;
    let back = read(scan, &BACK)?;
    Ok(SectionHeader {
        section_syntax_indicator: front[0] == 1,
        private_indicator: front[1] == 1,
        reserved_b1: front[2],
        table_id_extension: own[0],
        reserved_b5: back[0],
        version_number: back[1],
        current_next_indicator: back[2] == 1,
        section_number: (back[3] % 256) as u8,
        last_section_number: (back[4] % 256) as u8,
    })
}

fn put_front(rt: &impl Print, header: SectionHeader) -> io::Result<()> {
    put_short(
        rt,
        FRONT,
        [
            header.section_syntax_indicator as u16,
            header.private_indicator as u16,
            header.reserved_b1,
            0,
        ],
    )
}

fn put_back(rt: &impl Print, header: SectionHeader) -> io::Result<()> {
    put(
        rt,
        &BACK,
        &[
            header.reserved_b5,
            header.version_number,
            header.current_next_indicator as u16,
            header.section_number as u16,
            header.last_section_number as u16,
        ],
    )
}

// The header of a section that was read, behind the number of the section's bytes.
pub fn put_header(
    rt: &impl Print,
    total: usize,
    header: SectionHeader,
    extension: Short,
) -> io::Result<()> {
    say(rt, TOTAL)?;
    put_number(rt, total)?;
    put_front(rt, header)?;
    put_short(rt, extension, [header.table_id_extension, 0, 0, 0])?;
    put_back(rt, header)
}
