// Sections of both tables, and a header to be written, as numbers alone. Beside a refusal stand zeros.
#![tactic(auto)]

ghost use Rattle.std.specs.Prelude.{◌≡◌};
ghost use Rattle.flat_sections.specs.Sections.{header_flat, header_of, rct_header_flat, rct_header_of, no_related, rct_numbers, rct_answer, no_resolution, rnt_numbers, rnt_answer};

use flat_locator::is_set;
use flat_refusal::fine;
use link::Range;
use rct::RctHeader;
use rct_reader::RctSection;
use rnt::RntHeader;
use rnt_reader::RntSection;
use section_header::SectionHeader;
use spans::Span;
use wire::verdict::Refusal;

// Bytes 1 to 7 of a section, its length apart. A flag is 0 for no, anything else for yes.
#[repr(C)]
#[derive(Drop)]
pub struct FlatHeader {
    pub section_syntax_indicator: u8,
    pub private_indicator: u8,
    pub reserved_b1: u16,
    pub table_id_extension: u16,
    pub reserved_b5: u16,
    pub version_number: u16,
    pub current_next_indicator: u8,
    pub section_number: u8,
    pub last_section_number: u8,
}

#[repr(C)]
#[derive(Drop)]
pub struct FlatRctHeader {
    pub section: FlatHeader,
    pub year_offset: u16,
}

#[repr(C)]
#[derive(Drop)]
pub struct RctAnswer {
    pub refusal: Refusal,
    pub total: usize,
    pub header: FlatRctHeader,
    pub number_of_links: usize,
    pub reserved_descriptor_loop_length: u16,
    pub descriptors: Range,
}

#[repr(C)]
#[derive(Drop)]
pub struct RntAnswer {
    pub refusal: Refusal,
    pub total: usize,
    pub header: FlatHeader,
    pub context_id_type: u8,
    pub reserved_common_descriptors_length: u16,
    pub common_descriptors: Span,
    pub number_of_providers: usize,
}

impl FlatHeader {
    pub fn of(header: SectionHeader) -> FlatHeader
        ensures { result ≡ header_flat header }
    {
        FlatHeader {
            section_syntax_indicator: wire::flag(header.section_syntax_indicator),
            private_indicator: wire::flag(header.private_indicator),
            reserved_b1: header.reserved_b1,
            table_id_extension: header.table_id_extension,
            reserved_b5: header.reserved_b5,
            version_number: header.version_number,
            current_next_indicator: wire::flag(header.current_next_indicator),
            section_number: header.section_number,
            last_section_number: header.last_section_number,
        }
    }

    pub fn header(self) -> SectionHeader
        ensures { result ≡ header_of self }
    {
        SectionHeader::with_reserved(
            is_set(self.section_syntax_indicator),
            is_set(self.private_indicator),
            self.reserved_b1,
            self.table_id_extension,
            self.reserved_b5,
            self.version_number,
            is_set(self.current_next_indicator),
            self.section_number,
            self.last_section_number,
        )
    }
}

impl FlatRctHeader {
    pub fn of(header: RctHeader) -> FlatRctHeader
        ensures { result ≡ rct_header_flat header }
    {
        let section = header.section;
        FlatRctHeader {
            section: FlatHeader::of(section),
            year_offset: header.year_offset,
        }
    }

    pub fn header(self) -> RctHeader
        ensures { result ≡ rct_header_of self }
    {
        let section = self.section;
        RctHeader {
            section: section.header(),
            year_offset: self.year_offset,
        }
    }
}

fn no_related() -> RctSection
    ensures { result ≡ no_related }
{
    let section = SectionHeader::none();
    RctSection {
        total: 0,
        header: RctHeader {
            section,
            year_offset: 0,
        },
        number_of_links: 0,
        reserved_descriptor_loop_length: 0,
        descriptors: Range {
            start: 0,
            length: 0,
        },
    }
}

impl RctAnswer {
    fn beside(refusal: Refusal, read: RctSection) -> RctAnswer
        ensures { result ≡ rct_numbers refusal read }
    {
        let header = read.header;
        let descriptors = read.descriptors;
        RctAnswer {
            refusal,
            total: read.total,
            header: FlatRctHeader::of(header),
            number_of_links: read.number_of_links,
            reserved_descriptor_loop_length: read.reserved_descriptor_loop_length,
            descriptors,
        }
    }

    pub fn of(read: Result<RctSection, Refusal>) -> RctAnswer
        ensures { result ≡ rct_answer read }
    {
        match read {
            Ok(section) => RctAnswer::beside(fine(), section),
            Err(r) => RctAnswer::beside(r, no_related()),
        }
    }
}

fn no_resolution() -> RntSection
    ensures { result ≡ no_resolution }
{
    let section = SectionHeader::none();
    RntSection {
        total: 0,
        header: RntHeader {
            section,
            context_id_type: 0,
        },
        reserved_common_descriptors_length: 0,
        common_descriptors: Span {
            start: 0,
            length: 0,
        },
        number_of_providers: 0,
    }
}

impl RntAnswer {
    fn beside(refusal: Refusal, read: RntSection) -> RntAnswer
        ensures { result ≡ rnt_numbers refusal read }
    {
        let header = read.header;
        let section = header.section;
        let common_descriptors = read.common_descriptors;
        RntAnswer {
            refusal,
            total: read.total,
            header: FlatHeader::of(section),
            context_id_type: header.context_id_type,
            reserved_common_descriptors_length: read.reserved_common_descriptors_length,
            common_descriptors,
            number_of_providers: read.number_of_providers,
        }
    }

    pub fn of(read: Result<RntSection, Refusal>) -> RntAnswer
        ensures { result ≡ rnt_answer read }
    {
        match read {
            Ok(section) => RntAnswer::beside(fine(), section),
            Err(r) => RntAnswer::beside(r, no_resolution()),
        }
    }
}
