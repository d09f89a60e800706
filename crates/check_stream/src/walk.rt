// A walk over the pages of an accepted stream, and what is found on each (RULES.md, 18).
ghost use Rattle.std.specs.Prelude.{◌-◌, ◌≤◌, ◌≡◌, ◌&&◌, eqb, length, get_or};
ghost use Rattle.octets.specs.Pick.{pick};
ghost use Rattle.stream.specs.Lent.{lent_of};
ghost use Rattle.reader.specs.Answers.{known_as};
ghost use Rattle.stream.specs.Feed.{start as started};
ghost use Rattle.check_stream.specs.Code.{begun, open_on, found_by, CanTurn, Turned};

use reader::{Fed, Reader};
use stream::Counts;

// What is found on a page.
#[derive(Clone, Copy)]
pub(crate) struct Found {
    // the last packet is left unfinished
    pub(crate) unfinished: bool,
    // no page is marked last
    pub(crate) endless: bool,
    // more samples are trimmed than the last packet has
    pub(crate) overtrimmed: bool,
    // the comment packet completes here, and has a REPLAYGAIN tag
    pub(crate) gain: bool,
    // a hole lies before the packets
    pub(crate) hole: bool,
}

// A walk after some pages.
#[derive(Clone, Copy)]
pub(crate) struct Walk {
    // it was fed these pages
    pub(crate) reader: Reader,
    // the next page and its place
    pub(crate) page: usize,
    pub(crate) at: usize,
    // a packet is unfinished
    pub(crate) pending: bool,
    // the samples of the last packet
    pub(crate) last: u64,
    // on the last of these pages
    pub(crate) found: Found,
}

// Whether both hold.
fn both(a: bool, b: bool) -> bool
    ensures { result ≡ (a && b) }
{
    if a {
        return b;
    }
    false
}

// Whether a packet is unfinished after these lacing values; `before` tells whether one was before them.
fn is_open(lacing: &[u8], before: bool) -> bool
    ensures { result ≡ open_on before lacing.now }
{
    let n = lacing.len();
    if n == 0 {
        return before;
    }
    lacing[n - 1] >= 255
}

// The samples of the last of so many packets; where there is none, `before`.
fn last_of(before: u64, packets: u64, lengths: &[u64]) -> u64
    requires { packets ≤ length lengths.now }
    ensures { result ≡ pick (eqb packets 0) before (get_or lengths.now (packets - 1) 0) }
{
    if packets == 0 {
        return before;
    }
    lengths[(packets - 1) as usize]
}

// What is found on a page with these counts, by what is known after it. `last` is the samples of the last packet.
fn found_on(
    ending: bool,
    pending: bool,
    ended: bool,
    last: u64,
    gain: bool,
    counts: Counts,
) -> Found
    ensures { result ≡ found_by ending pending ended last gain counts }
{
    Found {
        unfinished: both(ending, pending),
        endless: both(ending, !ended),
        overtrimmed: both(ending, last < counts.trimmed),
        gain,
        hole: counts.hole > 0,
    }
}

// Before any page.
pub(crate) fn begin() -> Walk
    ensures { (result ≡ begun result.reader) × (known_as result.reader ≡ started) }
{
    Walk {
        reader: reader::start(),
        page: 0,
        at: 0,
        pending: false,
        last: 0,
        found: Found {
            unfinished: false,
            endless: false,
            overtrimmed: false,
            gain: false,
            hole: false,
        },
    }
}

// Feeds one page more to the walk. The headers have so many pages; `gains` tells whether they have a REPLAYGAIN tag.
pub(crate) fn turn(
    walk: Walk,
    stream: &[u8],
    headers: usize,
    gains: bool,
    carry: &mut [u8],
    ends: &mut [u64],
    lengths: &mut [u64],
    kept: &mut [u64],
    frames: &mut [u64],
) -> Walk
    requires { CanTurn stream.now headers gains walk
        (lent_of carry.old ends.old lengths.old kept.old frames.old) }
    ensures { Turned stream.now walk result carry.new }
{
    let page = recording_pages::page_at(stream, walk.at);
    match reader::feed(walk.reader, page, carry, ends, lengths, kept, frames) {
        Ok(fed) => {
            let counts = fed.counts;
            let number = walk.page + 1;
            let at = walk.at + page.len();
            let pending = is_open(page_layout::lacing_of(page), walk.pending);
            let last = last_of(walk.last, counts.packets, lengths);
            let gain = both(number == headers, gains);
            let ended = reader::is_ended(fed.reader);
            let found = found_on(at == stream.len(), pending, ended, last, gain, counts);
            Walk {
                reader: fed.reader,
                page: number,
                at,
                pending,
                last,
                found,
            }
        }
        Err(_) => walk,
    }
}
