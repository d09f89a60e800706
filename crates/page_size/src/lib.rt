// How long an Ogg page is by its lacing values (RFC 3533, 6): where one would end, and whether bytes are exactly one.
#![tactic(auto)]

ghost use Rattle.std.specs.Prelude.{◌≡◌, ◌<◌, ◌^◌};
ghost use Rattle.page_size.specs.Size.{Sized, is_one_page};
ghost use Rattle.page_size.specs.Extent.{extent_in, page_extent, told_extent};

use page_layout::{LACING_AT, VERSION_AT};

// Where a page would end.
#[derive(Clone, Copy)]
pub enum Extent {
    // at a place of the buffer or past it
    Ends(usize),
    // not known yet: its header or its lacing values are not all there
    Short,
    // nowhere: no page starts here
    NoPage,
}

// How long the page is by its lacing values.
fn size_of(page: &[u8]) -> usize
    ensures { Sized page.now result }
{
    LACING_AT + page_layout::count_of(page) + page_lacing::sum_of(page_layout::lacing_of(page))
}

// Where the page would end that s, the bytes from place `at` of a buffer on, begins with.
fn extent_in(s: &[u8], at: usize) -> Extent
    requires { at < 2 ^ 63 }
    ensures { told_extent result ≡ extent_in s.now at }
{
    let short = s.len() < LACING_AT;
    if short {
        return Extent::Short;
    }
    if !page_layout::has_capture(s) {
        return Extent::NoPage;
    }
    if s.len() < LACING_AT + page_layout::count_of(s) {
        return Extent::Short;
    }
    Extent::Ends(at + size_of(s))
}

// Where the page that starts at place `at` of a buffer would end (RULES.md, 3; RFC 3533, 6). `Short`: fewer than 27 bytes
// are there from `at` on, or its lacing values are cut. `NoPage`: 27 bytes or more are there and do not begin with "OggS".
// The version and the checksum are not looked at.
// Example: of "OggS" and 23 zero bytes `page_extent(buffer, 0)` is `Extent::Ends(27)`; of the first 26 it is `Short`.
pub fn page_extent(buffer: &[u8], at: usize) -> Extent
    ensures { told_extent result ≡ page_extent buffer.now at }
{
    if buffer.len() < at {
        return Extent::Short;
    }
    extent_in(&buffer[at..], at)
}

// Whether the bytes are exactly one whole page, of version 0 (RULES.md, 3; RFC 3533, 6). The checksum is not looked at.
// Example: "OggS" and 23 zero bytes are one page; with one byte more they are not.
pub fn is_one_page(page: &[u8]) -> bool
    ensures { result ≡ is_one_page page.now }
{
    if !page_layout::has_capture(page) {
        return false;
    }
    if octets::byte_at(page, VERSION_AT) != 0 {
        return false;
    }
    page.len() == size_of(page)
}
