// What a reader of a stream is made of, and what it tells of a page. No code: the rules are in `specs/`, and the code that
// follows them is in the crates that use this one.
#![tactic(auto)]

use granule::Position;
use refusal::Refusal;

// How far the stream has come.
#[derive(Clone, Copy)]
pub enum Phase {
    // no page accepted yet
    First,
    // before the end of the comment header
    Comment,
    // among the audio pages
    Audio,
    // opened part way, no page accepted yet
    Opened,
    // a page marked last was accepted
    Ended,
}

// The unfinished packet.
#[derive(Clone, Copy)]
pub enum Pending {
    Nothing,
    // so many of its bytes are in the carry buffer
    Held(usize),
    // it is not listed, and none of its bytes is held
    Dropped,
}

// All that decides a refusal, a stamp or a length, besides the carry bytes up to the held count. `next` is the sequence number
// that is due.
#[derive(Clone, Copy)]
pub struct Core {
    pub pending: Pending,
    pub position: Position,
    pub serial: u32,
    pub next: u32,
    pub streams: u8,
    pub preskip: u16,
    pub phase: Phase,
}

// All that only counts: the samples still to skip, and those of all accepted pages that were kept, skipped and trimmed, and the
// holes. A total is modulo 2^64, which no stream reaches.
#[derive(Clone, Copy)]
pub struct Tally {
    pub skip: u16,
    pub kept: u64,
    pub skipped: u64,
    pub trimmed: u64,
    pub hole: u64,
}

// An accepted page: the packets that it lists, their samples, how many of these are kept, skipped and trimmed, and the hole
// in front of them.
#[derive(Clone, Copy)]
pub struct Counts {
    pub packets: u64,
    pub samples: u64,
    pub kept: u64,
    pub skipped: u64,
    pub trimmed: u64,
    pub hole: u64,
}

// What feeding a page answers.
// The next core and tally, and the page's own record.
#[derive(Clone, Copy)]
pub struct PageFed {
    pub core: Core,
    pub tally: Tally,
    pub counts: Counts,
}

// What a page is of one packet, by its lacing values.
#[derive(Clone, Copy)]
pub enum Shape {
    // its last piece and nothing else
    Ends,
    // a piece that goes on and nothing else
    GoesOn,
    // something else
    Other,
}
