// Cropping a stream in a lent buffer to a lent output (RULES.md, 17).
#![tactic(auto)]

ghost use Rattle.refusal.specs.Told.{told};
ghost use Rattle.std.specs.Prelude.{◌+◌, ◌-◌, ◌≤◌, ◌≡◌, length};
ghost use Rattle.octets.specs.Octets.{copied};
ghost use Rattle.page_crc.specs.Crc.{page_crc};
ghost use Rattle.stream.specs.Readings.{readings};
ghost use Rattle.recording.specs.Pages.{pages_of};
ghost use Rattle.crop_rules.specs.Crop.{is_start};
ghost use Rattle.crop_rules.specs.Cropping.{Crops};
ghost use Rattle.crop.specs.Code.{moved_pages, Accepted, CanPut, IsPlaced, CropsWhole};

use refusal::Refusal;

// Whether a crop may begin at this page, which begins at a place; the headers have so many pages.
fn is_start(stream: &[u8], headers: usize, page: usize, at: usize) -> bool
    requires { IsPlaced stream.now headers page at }
    ensures { result ≡ is_start (pages_of stream.now) page }
{
    if page < headers {
        return false;
    }
    if at >= stream.len() {
        return false;
    }
    crop_page::may_begin(recording_pages::page_at(stream, at))
}

// Writes the pages from a place on, each with its number `back` less, to the output from place `to` on.
fn put_pages(stream: &[u8], from: usize, back: u32, out: &mut [u8], to: usize)
    requires { CanPut stream.now from out.old to }
    ensures { out.new ≡ copied out.old to (moved_pages back stream.now from) }
{
    let mut at = from;
    let mut put = to;
    while at < stream.len() {
        let page = recording_pages::page_at(stream, at);
        let size = page.len();
        let _ = crop_page::write_back(page, back, &mut out[put..]);
        at += size;
        put += size;
    }
}

// The crop of a whole stream.
fn crop_whole(stream: &[u8], page: usize, out: &mut [u8]) -> Result<usize, Refusal>
    requires { Accepted stream.now }
    ensures { CropsWhole stream.now page (told result) out.old out.new }
{
    let headers = recording_pages::headers_end(stream);
    let at = recording_pages::place_of(stream, page);
    if !is_start(stream, headers.page, page, at) {
        return Err(Refusal::NoCropStart);
    }
    let size = headers.at + (stream.len() - at);
    if out.len() < size {
        return Err(Refusal::ShortOutput);
    }
    let back = (page - headers.page) % 4294967296;
    octets::copy_at(out, 0, &stream[..headers.at]);
    put_pages(stream, at, back as u32, out, headers.at);
    Ok(size)
}

// Crops the stream at a page, the first being page 0: both headers as they are, and all pages from that one on, renumbered so
// that they follow the headers, with their checksums made again, are written to the start of `out` (RULES.md, 17).
// A stream that is not whole is refused as `recording::judge` refuses it. 29: there is no such page, or it is one of the headers,
// or is marked continued, completes no packet, or is marked last. 22: `out` is shorter than the crop. On refusal nothing is
// written. As many bytes as the stream has are always enough.
// Example: of two header pages and three audio pages, each of one packet of its own, none marked last, `crop(stream, 3, out)` has
// four pages, numbered 0 to 3.
pub fn crop(stream: &[u8], page: usize, out: &mut [u8]) -> Result<usize, Refusal>
    ensures { Crops (readings page_crc) stream.now page (told result)
        out.old out.new }
{
    recording::judge(stream)?;
    crop_whole(stream, page, out)
}
