// Where the parts of a comment header lie (RFC 7845, 5.2): each text after its length, by places in the packet.
#![tactic(auto)]

ghost use Rattle.refusal.specs.Told.{told};
ghost use Rattle.std.specs.Prelude.{◌≡◌};
ghost use Rattle.octets.specs.Numbers.{number};
ghost use Rattle.tags_layout.specs.Layout.{vendor_place, fits_at, count_of, first_place};
ghost use Rattle.tags_layout.specs.Finding.{find_text};

use refusal::Refusal;

// What the packet begins with.
pub const SIGNATURE: [u8; 8] = *b"OpusTags";

// The place of the vendor's length.
pub const VENDOR_PLACE: usize = 8;

// The place of the vendor's first byte.
pub const VENDOR_START: usize = 12;

// How long a packet with an empty vendor and no comment is.
pub const EMPTY_SIZE: usize = 16;

// A part of a packet: where it starts, and how many bytes it has.
#[derive(Clone, Copy)]
pub struct Part {
    pub start: usize,
    pub size: usize,
}

// Whether the text whose length is at this place lies inside the packet, with the four bytes of that length (RULES.md, 5).
// Example: `fits_at(&[1, 0, 0, 0, 0x61], 0)` is true, and `fits_at(&[2, 0, 0, 0, 0x61], 0)` is false.
pub fn fits_at(b: &[u8], at: usize) -> bool
    ensures { result ≡ fits_at b.now at }
{
    if b.len() < at {
        return false;
    }
    if b.len() - at < 4 {
        return false;
    }
    number_reader::number32(b, at) as usize <= b.len() - at - 4
}

// Where the text lies whose length is at this place: a listing goes from the end of each comment to the next. 14: the
// length, or the text, passes the end (RULES.md, 5).
// Example: `find_text(&[1, 0, 0, 0, 0x61], 0)` gives the start 4 and the size 1.
pub fn find_text(b: &[u8], at: usize) -> Result<Part, Refusal>
    ensures { told result ≡ find_text b.now at }
{
    if !fits_at(b, at) {
        return Err(Refusal::BadTags);
    }
    let size = number_reader::number32(b, at) as usize;
    Ok(Part {
        start: at + 4,
        size,
    })
}

// How many bytes the packet says that its vendor has: the number at place 8 (RULES.md, 5). It refuses nothing.
// Example: after "OpusTags" the bytes 3, 0, 0, 0 give 3.
pub fn vendor_size(b: &[u8]) -> u32
    ensures { result ≡ number 4 b.now vendor_place }
{
    number_reader::number32(b, VENDOR_PLACE)
}

// How many comments the packet says that it has: the number after the vendor (RULES.md, 5). It refuses nothing, and a packet
// that `tags_reader::read_tags` refuses may say any number.
// Example: after an empty vendor the bytes 2, 0, 0, 0 at place 12 give 2.
pub fn count_of(b: &[u8]) -> usize
    ensures { result ≡ count_of b.now }
{
    let vendor = vendor_size(b) as usize;
    number_reader::number32(b, VENDOR_START + vendor) as usize
}

// The place of the length of the first comment, for a listing (RULES.md, 5). It may lie past the end where the packet is
// wrong. It refuses nothing. Example: with a vendor of 3 bytes it is 19.
pub fn first_comment(b: &[u8]) -> usize
    ensures { result ≡ first_place b.now }
{
    let size = vendor_size(b) as usize;
    EMPTY_SIZE + size
}
