// The page at which a crop begins, found by a position (RULES.md, 17).
#![tactic(auto)]

ghost use Rattle.std.specs.Prelude.{◌+◌, ◌≤◌, ◌≡◌, true, length};
ghost use Rattle.std.proofs.Math.Option.{none};
ghost use Rattle.octets.specs.Pick.{pick};
ghost use Rattle.page_crc.specs.Crc.{page_crc};
ghost use Rattle.stream.specs.Readings.{readings};
ghost use Rattle.stream.specs.Lent.{lent_of};
ghost use Rattle.recording.specs.Pages.{pages_of};
ghost use Rattle.recording.specs.Judging.{first_refused, fresh};
ghost use Rattle.crop_start.specs.Start.{told_best, best_start, start_found};
ghost use Rattle.crop_start.specs.Code.{told_start, best_as, first_in, may_start, CanTurn, Turned, CanFind};

use limits::{LIST_MAX, PACKET_MAX};
use reader::{Fed, Reader};
use refusal::Refusal;

// The page at which a crop may begin, and the position at which its first packet starts.
#[derive(Clone, Copy)]
pub struct CropStart {
    pub page: usize,
    pub position: u64,
}

// A walk over the pages: the reader that was fed those before, the next page and its place, and the best page of those before.
#[derive(Clone, Copy)]
struct Walk {
    reader: Reader,
    page: usize,
    at: usize,
    best: Option<CropStart>,
}

// Where the first of so many packets starts, by its end stamp and its length.
fn first_start(packets: u64, ends: &[u64], lengths: &[u64]) -> u64
    requires { (1 ≤ length ends.now) × (1 ≤ length lengths.now) }
    ensures { result ≡ first_in packets ends.now lengths.now }
{
    if packets == 0 {
        return 0;
    }
    if ends[0] < lengths[0] {
        return 0;
    }
    ends[0] - lengths[0]
}

// Whether a crop may begin at this page, and it starts at or before the position.
fn may_start(page: &[u8], headers: usize, number: usize, start: u64, position: u64) -> bool
    ensures { result ≡ may_start page.now headers number start position }
{
    if number < headers {
        return false;
    }
    if start > position {
        return false;
    }
    crop_page::may_begin(page)
}

// The best page, with one page more.
fn better(best: Option<CropStart>, holds: bool, page: usize, position: u64) -> Option<CropStart>
    ensures { result ≡ pick holds (Some (record { page = page; position = position })) best }
{
    if holds {
        Some(CropStart { page, position })
    } else {
        best
    }
}

// Feeds one page more to the walk.
fn turn(
    walk: Walk,
    stream: &[u8],
    headers: usize,
    position: u64,
    carry: &mut [u8],
    ends: &mut [u64],
    lengths: &mut [u64],
    kept: &mut [u64],
    frames: &mut [u64],
) -> Walk
    requires { CanTurn stream.now headers position walk
        (lent_of carry.old ends.old lengths.old kept.old frames.old) }
    ensures { Turned stream.now position walk result carry.new }
{
    let page = recording_pages::page_at(stream, walk.at);
    match reader::feed(walk.reader, page, carry, ends, lengths, kept, frames) {
        Ok(fed) => {
            let start = first_start(fed.counts.packets, ends, lengths);
            let holds = may_start(page, headers, walk.page, start, position);
            Walk {
                reader: fed.reader,
                page: walk.page + 1,
                at: walk.at + page.len(),
                best: better(walk.best, holds, walk.page, start),
            }
        }
        Err(_) => walk,
    }
}

// The best page of those up to page `last`, found in lent memory.
fn find_in(
    stream: &[u8],
    last: usize,
    position: u64,
    carry: &mut [u8],
    ends: &mut [u64],
    lengths: &mut [u64],
    kept: &mut [u64],
    frames: &mut [u64],
) -> Option<CropStart>
    requires { CanFind stream.now (lent_of carry.old ends.old lengths.old kept.old frames.old) }
    ensures { best_as result ≡ best_start (readings page_crc) (pages_of stream.now) position (last + 1) }
{
    let headers = recording_pages::headers_end(stream);
    let mut walk = Walk {
        reader: reader::start(),
        page: 0,
        at: 0,
        best: None,
    };
    while walk.page <= last {
        if walk.at >= stream.len() {
            return walk.best;
        }
        walk = turn(
            walk,
            stream,
            headers.page,
            position,
            carry,
            ends,
            lengths,
            kept,
            frames,
        );
    }
    walk.best
}

// The best page of a whole stream.
fn find_whole(stream: &[u8], last: usize, position: u64) -> Option<CropStart>
    requires { first_refused (readings page_crc) fresh 0 (pages_of stream.now) ≡ none }
    ensures { best_as result ≡ best_start (readings page_crc) (pages_of stream.now) position (last + 1) }
{
    let mut carry = [0u8; PACKET_MAX];
    let mut ends = [0u64; LIST_MAX];
    let mut lengths = [0u64; LIST_MAX];
    let mut kept = [0u64; LIST_MAX];
    let mut frames = [0u64; LIST_MAX];
    find_in(
        stream,
        last,
        position,
        &mut carry,
        &mut ends,
        &mut lengths,
        &mut kept,
        &mut frames,
    )
}

// The last page at which a crop of the stream may begin, of those up to page `last`, whose first packet starts at or before the
// position; and where that packet starts, its end stamp less its length (RULES.md, 17). The first page is page 0. A stream that
// is not whole is refused as `recording::judge` refuses it. 29: there is no such page.
// Example: of two header pages and three audio pages with a packet of 960 samples each, the granule positions being 960, 1,920
// and 2,880 and none marked last, `find_start(stream, 9, 1000)` gives page 3 and position 960, and `find_start(stream, 2, 1000)`
// gives page 2 and position 0.
pub fn find_start(stream: &[u8], last: usize, position: u64) -> Result<CropStart, Refusal>
    ensures { told_start result ≡ start_found (readings page_crc) stream.now last position }
{
    recording::judge(stream)?;
    find_whole(stream, last, position).ok_or(Refusal::NoCropStart)
}
