// Checking a stream in a lent buffer for what its writer was advised against (RULES.md, 18).
#![tactic(auto)]

ghost use Rattle.refusal.specs.Told.{told};
ghost use Rattle.std.specs.Prelude.{◌+◌, ◌<◌, ◌^◌, ◌≡◌, set, length};
ghost use Rattle.page_crc.specs.Crc.{page_crc};
ghost use Rattle.stream.specs.Readings.{readings};
ghost use Rattle.stream.specs.Lent.{lent_of};
ghost use Rattle.recording.specs.Pages.{pages_of};
ghost use Rattle.check_rules.specs.Findings.{finding_if, findings};
ghost use Rattle.check_rules.specs.Checking.{Checks};
ghost use Rattle.check_stream.specs.Code.{found_list, Put, CanFind, Tagged, Filled, Accepted, ChecksWhole};

use limits::{LIST_MAX, PACKET_MAX};
use refusal::Refusal;
use walk::Found;

mod gain;
mod walk;

// A finding into place `at` of the two lists, where it is there, and the place after it.
fn put_finding(
    there: bool,
    at: usize,
    kind: u64,
    page: u64,
    kinds: &mut [u64],
    pages: &mut [u64],
) -> usize
    requires { at + 1 < 2 ^ 64 }
    ensures { Put (finding_if there kind page) at 1 result kinds.old kinds.new
        pages.old pages.new }
{
    if there {
        lists::store_at(kinds, at, kind);
        lists::store_at(pages, at, page);
        return at + 1;
    }
    at
}

// The findings on a page into the two lists from place `at` on, and the place after them.
fn put_found(found: Found, page: u64, at: usize, kinds: &mut [u64], pages: &mut [u64]) -> usize
    requires { at + 5 < 2 ^ 64 }
    ensures { Put (found_list found page) at 5 result kinds.old kinds.new
        pages.old pages.new }
{
    let at = put_finding(found.unfinished, at, 1, page, kinds, pages);
    let at = put_finding(found.endless, at, 2, page, kinds, pages);
    let at = put_finding(found.overtrimmed, at, 3, page, kinds, pages);
    let at = put_finding(found.gain, at, 4, page, kinds, pages);
    put_finding(found.hole, at, 5, page, kinds, pages)
}

// Stores the findings of all pages, as far as the lists go, and tells how many there are; in lent memory.
fn find_in(
    stream: &[u8],
    headers: usize,
    gains: bool,
    kinds: &mut [u64],
    pages: &mut [u64],
    carry: &mut [u8],
    ends: &mut [u64],
    lengths: &mut [u64],
    kept: &mut [u64],
    frames: &mut [u64],
) -> usize
    requires { CanFind stream.now headers gains
        (lent_of carry.old ends.old lengths.old kept.old frames.old) }
    ensures { Filled stream.now result kinds.old kinds.new
        pages.old pages.new }
{
    let mut walk = walk::begin();
    let mut count = 0;
    while walk.at < stream.len() {
        let page = walk.page as u64;
        walk = walk::turn(
            walk, stream, headers, gains, carry, ends, lengths, kept, frames,
        );
        count = put_found(walk.found, page, count, kinds, pages);
    }
    count
}

// Stores the findings of all pages, as far as the lists go, and tells how many there are.
fn find(stream: &[u8], headers: usize, gains: bool, kinds: &mut [u64], pages: &mut [u64]) -> usize
    requires { Tagged stream.now headers gains }
    ensures { Filled stream.now result kinds.old kinds.new
        pages.old pages.new }
{
    let mut carry = [0u8; PACKET_MAX];
    let mut ends = [0u64; LIST_MAX];
    let mut lengths = [0u64; LIST_MAX];
    let mut kept = [0u64; LIST_MAX];
    let mut frames = [0u64; LIST_MAX];
    find_in(
        stream,
        headers,
        gains,
        kinds,
        pages,
        &mut carry,
        &mut ends,
        &mut lengths,
        &mut kept,
        &mut frames,
    )
}

// How many findings there are: they are stored in lists of one place, which are not looked at.
fn count(stream: &[u8], headers: usize, gains: bool) -> usize
    requires { Tagged stream.now headers gains }
    ensures { result ≡ length (findings (readings page_crc) (pages_of stream.now)) }
{
    let mut kinds = [0u64; 1];
    let mut pages = [0u64; 1];
    find(stream, headers, gains, &mut kinds, &mut pages)
}

// Checks a stream of which no page is refused.
fn check_whole(stream: &[u8], kinds: &mut [u64], pages: &mut [u64]) -> Result<usize, Refusal>
    requires { Accepted stream.now }
    ensures { ChecksWhole stream.now (told result) kinds.old kinds.new
        pages.old pages.new }
{
    let headers = recording_pages::headers_end(stream).page;
    let gains = gain::has_gain(stream, headers);
    if octets::least(kinds.len(), pages.len()) < count(stream, headers, gains) {
        return Err(Refusal::ShortOutput);
    }
    Ok(find(stream, headers, gains, kinds, pages))
}

// Checks the stream: its findings go to the first places of the two lists, their kinds and their pages, by page and then by
// kind, and it tells how many they are (RULES.md, 18). The kinds: 1 the last packet is left unfinished, 2 no page is marked
// last, 3 more samples are trimmed than the last packet has, 4 a REPLAYGAIN tag, 5 a hole. A stream that is not whole is refused
// as `recording::judge` refuses it; one whose findings are more than the shorter list has places, with 22. Under a refusal
// nothing is stored. Example: of the two header pages of a stream alone it is `Ok(1)`: kind 2, page 1.
pub fn check(stream: &[u8], kinds: &mut [u64], pages: &mut [u64]) -> Result<usize, Refusal>
    ensures { Checks (readings page_crc) stream.now (told result)
        kinds.old kinds.new pages.old pages.new }
{
    recording::judge(stream)?;
    check_whole(stream, kinds, pages)
}
