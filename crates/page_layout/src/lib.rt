// The parts of an Ogg page by their places (RFC 3533, 6): its fields, its lacing values, its body. These places are here
// and in specs/Places.antt, and everything else cites them.
#![tactic(auto)]

ghost use Rattle.std.specs.Prelude.{◌≡◌};
ghost use Rattle.octets.specs.Octets.{Widened};
ghost use Rattle.page_layout.specs.Page.{has_capture, header_of, count_of, lacing_of, body_of};

// The capture pattern, with which every page begins.
pub const CAPTURE: [u8; 4] = *b"OggS";

pub const VERSION_AT: usize = 4;

pub const FLAGS_AT: usize = 5;

pub const GRANULE_AT: usize = 6;

pub const SERIAL_AT: usize = 14;

pub const SEQUENCE_AT: usize = 18;

pub const CHECKSUM_AT: usize = 22;

// The number of lacing values.
pub const COUNT_AT: usize = 26;

// The lacing values, after all fields of one length.
pub const LACING_AT: usize = 27;

// The fields of a page before its lacing values. Flags: 1 continued, 2 first, 4 last.
#[derive(Clone, Copy)]
pub struct PageHeader {
    pub flags: u8,
    pub granule: u64,
    pub serial: u32,
    pub sequence: u32,
}

// Whether the bytes begin with the capture pattern (RULES.md, 3; RFC 3533, 6).
// Example: `has_capture(b"OggS and more")` is true, and `has_capture(b"Ogg")` is false.
pub fn has_capture(s: &[u8]) -> bool
    ensures { result ≡ has_capture s.now }
{
    let capture = CAPTURE;
    octets::begins_with(s, &capture)
}

// How many lacing values the page says that it has, in its byte 26 (RULES.md, 3; RFC 3533, 6); 0 where there is no such byte.
// Example: of 27 bytes, the last of them 3, it is 3; of the first 26 of them it is 0.
pub fn count_of(page: &[u8]) -> usize
    ensures { Widened (count_of page.now) result }
{
    octets::wide(octets::byte_at(page, COUNT_AT))
}

// The lacing values of a page (RULES.md, 3; RFC 3533, 6); of fewer bytes than they take, those that are there.
// Example: where byte 26 of a page is 2, they are its bytes 27 and 28.
pub fn lacing_of(page: &[u8]) -> &[u8]
    ensures { result.now ≡ lacing_of page.now }
{
    octets::part_of(page, LACING_AT, count_of(page))
}

// What follows the lacing values, up to the end of the bytes: the body of a whole page (RULES.md, 3; RFC 3533, 6).
// Example: where byte 26 of a page is 2, it begins with byte 29.
pub fn body_of(page: &[u8]) -> &[u8]
    ensures { result.now ≡ body_of page.now }
{
    octets::part_of(page, LACING_AT + count_of(page), page.len())
}

// The fields before the lacing values (RULES.md, 3; RFC 3533, 6); a place past the end reads as zero.
// Example: `header_of(b"OggS\x00\x04")` has the flags 4, and the granule position, the serial and the sequence number 0.
pub fn header_of(page: &[u8]) -> PageHeader
    ensures { result ≡ header_of page.now }
{
    PageHeader {
        flags: octets::byte_at(page, FLAGS_AT),
        granule: number_reader::number64(page, GRANULE_AT),
        serial: number_reader::number32(page, SERIAL_AT),
        sequence: number_reader::number32(page, SEQUENCE_AT),
    }
}
