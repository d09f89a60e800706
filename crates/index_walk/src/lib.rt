// A walk over the pages of a stream in a lent buffer that makes the records of its index (RULES.md, 15), by the headers and the
// lacing values of the pages alone: no checksum is made and no packet is looked at.
#![tactic(auto)]

ghost use Rattle.std.specs.Prelude.{◌≡◌, length};
ghost use Rattle.recording.specs.Pages.{pages_of};
ghost use Rattle.index_walk.specs.Records.{index_of};
ghost use Rattle.index_walk.specs.Walk.{due_after, is_recorded, begun_at, stepped_to, next_of};

use index_search::IndexRecord;

// A place past the end of every list of records. Stays a number: storing there is storing nothing, so no caller has a case for
// it.
pub const NOWHERE: usize = 18446744073709551615;

// What the next page of a stream is.
#[derive(Clone, Copy)]
pub enum Due {
    // the identification header
    Head,
    // a page of the comment header
    Comment,
    Audio,
}

// How far a walk has come: the place of the next page, what that is, how many records were made, and of the page before it the
// record and its place in the index, `NOWHERE` if it has none there.
#[derive(Clone, Copy)]
pub struct Walk {
    pub at: usize,
    pub due: Due,
    pub count: usize,
    pub slot: usize,
    pub made: IndexRecord,
}

fn due_after(due: Due, done: bool) -> Due
    ensures { result ≡ due_after due done }
{
    match due {
        Due::Head => Due::Comment,
        Due::Comment => { if done { Due::Audio } else { Due::Comment } }
        Due::Audio => Due::Audio,
    }
}

fn is_recorded(due: Due, done: bool) -> bool
    ensures { result ≡ is_recorded due done }
{
    match due {
        Due::Head => false,
        Due::Comment => false,
        Due::Audio => done,
    }
}

// The walk before the page at a place, which is taken as the first of a stream (RULES.md, 15). It refuses nothing.
// Example: `begin(0)` has come to no page, and is due the identification header.
pub fn begin(at: usize) -> Walk
    ensures { result ≡ begun_at at }
{
    Walk {
        at,
        due: Due::Head,
        count: 0,
        slot: NOWHERE,
        made: IndexRecord {
            granule: 0,
            place: 0,
            sequence: 0,
        },
    }
}

// The walk after a page that ends at a place, with the record that is made of it.
fn step(w: Walk, end: usize, done: bool, made: IndexRecord) -> Walk
    ensures { result ≡ stepped_to w end done made }
{
    let due = w.due;
    if is_recorded(due, done) {
        return Walk {
            at: end,
            due: due_after(due, done),
            count: std::num::wrapping_add_usize(w.count, 1),
            slot: w.count,
            made,
        };
    }
    Walk {
        at: end,
        due: due_after(due, done),
        count: w.count,
        slot: NOWHERE,
        made,
    }
}

// The walk after the page that it has come to (RULES.md, 15). It refuses nothing: a page that the end of the buffer cuts ends
// there, and at the end of the buffer the page has no bytes.
// Example: where w is due an audio page on which a packet completes, `next(stream, w).slot` is `w.count`.
pub fn next(stream: &[u8], w: Walk) -> Walk
    ensures { result ≡ next_of stream.now w }
{
    let page = recording_pages::page_at(stream, w.at);
    let header = page_layout::header_of(page);
    let done = recording_pages::has_end(page_layout::lacing_of(page));
    let end = w.at + page.len();
    let made = IndexRecord {
        granule: header.granule,
        place: w.at as u64,
        sequence: header.sequence,
    };
    step(w, end, done, made)
}

// How many records the index of the stream has (RULES.md, 15). It refuses nothing, whether the stream is whole or not.
// Example: of the two header pages and an audio page with one packet it is 1.
pub fn count(stream: &[u8]) -> usize
    ensures { result ≡ length (index_of (pages_of stream.now)) }
{
    let mut w = begin(0);
    while w.at < stream.len() {
        w = next(stream, w);
    }
    w.count
}
