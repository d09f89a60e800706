// One page of a crop (RULES.md, 17): whether a crop may begin at it, and the page renumbered.
#![tactic(auto)]

ghost use Rattle.std.specs.Prelude.{◌≡◌};
ghost use Rattle.stream.specs.Page.{page_of};
ghost use Rattle.crop_rules.specs.Crop.{may_begin};
ghost use Rattle.crop_page.specs.Renumbering.{WroteBack};

use page_layout::PageHeader;
use refusal::Refusal;

// Whether a crop may begin at an audio page (RULES.md, 17): it is not marked continued, a packet completes on it, and it is not
// marked last. It refuses nothing: any bytes are read as a page.
// Example: of a page with the flags 0 and the lacing values 255 and 3 it is true, and with the flags 4 it is false.
pub fn may_begin(page: &[u8]) -> bool
    ensures { result ≡ may_begin (page_of page.now) }
{
    let h = page_layout::header_of(page);
    if page_flags::is_continued(h.flags) {
        return false;
    }
    if !recording_pages::has_end(page_layout::lacing_of(page)) {
        return false;
    }
    !page_flags::is_last_page(h.flags)
}

// The page with its sequence number `back` less, modulo 2^32, written to the start of `out` with its checksum made (RULES.md, 3
// and 17; RFC 3533, 6). 23: the lacing values do not sum to the length of the body. 22: not 23, and `out` is shorter than the
// page. On refusal nothing is written. Bytes that are one page by 3 are not refused where `out` has as many bytes.
// Example: a page of 31 bytes with the number 2 gives `Ok(31)`, and with `back` 3 the number 4,294,967,295.
pub fn write_back(page: &[u8], back: u32, out: &mut [u8]) -> Result<usize, Refusal>
    ensures { WroteBack back page.now out.old result out.new }
{
    let h = page_layout::header_of(page);
    let moved = PageHeader {
        flags: h.flags,
        granule: h.granule,
        serial: h.serial,
        sequence: std::num::wrapping_sub_u32(h.sequence, back),
    };
    let lacing = page_layout::lacing_of(page);
    let body = page_layout::body_of(page);
    page_writer::write_any_page(moved, lacing, body, out)
}
