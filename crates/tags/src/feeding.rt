// Reading standard input, and feeding its pages up to the comment header.
use super::{Streams, fail};
use limits::LIST_MAX;
use reader::{Fed, Reader};
use refusal::Refusal;
use std::io::{ErrorKind, Read};

#[derive(Clone, Copy)]
pub(crate) enum Stage {
    // feeding goes on
    Feeding,
    // it has ended with a comment packet of this length in the carry buffer
    Complete(usize),
    // it has ended by a refusal, of this number
    Refused(u8),
    // it has ended at the end of the input
    Cut,
    // it has ended by a read that failed
    Unread,
}

// How far feeding has come. The identification header's packet has so many bytes, none before its page was accepted.
#[derive(Clone, Copy)]
pub(crate) struct Progress {
    reader: Reader,
    pub(crate) header_size: usize,
    pub(crate) pages: u64,
    pub(crate) stage: Stage,
}

// The bytes of the input buffer from `start` to `end` are read and not fed.
#[derive(Clone, Copy)]
struct State {
    progress: Progress,
    start: usize,
    end: usize,
}

#[derive(Clone, Copy)]
enum Got {
    Bytes(usize),
    Nothing,
    Failed,
}

// ---- reading

// Reads on after the first n bytes, and tells where the bytes end now. A failure is said on standard error.
fn read_after(streams: Streams, buffer: &mut [u8], n: usize) -> Got {
    let at = octets::least(n, buffer.len());
    let mut input = streams.input;
    match input.read(&mut buffer[at..]) {
        Ok(0) => Got::Nothing,
        Ok(more) => Got::Bytes(std::num::wrapping_add_usize(at, more)),
        Err(why) => {
            if why.kind() == ErrorKind::Interrupted {
                return Got::Bytes(at);
            }
            fail(streams, "cannot read standard input", why);
            Got::Failed
        }
    }
}

// ---- feeding

fn stopped(p: Progress, stage: Stage) -> Progress {
    let reader = p.reader;
    Progress {
        reader,
        header_size: p.header_size,
        pages: p.pages,
        stage,
    }
}

// The stage after a page of the comment packet, which has the bytes held before that page and its body.
fn comment_stage(before: Reader, next: Reader, body: &[u8]) -> Stage {
    if reader::held(next) > 0 {
        return Stage::Feeding;
    }
    Stage::Complete(std::num::wrapping_add_usize(reader::held(before), body.len()))
}

// After the first page was accepted, whose body is the identification header's packet, or a page of the comment packet.
fn accepted(p: Progress, next: Reader, body: &[u8], header: &mut [u8]) -> Progress {
    if p.pages == 0 {
        octets::copy_at(header, 0, body);
        return Progress {
            reader: next,
            header_size: body.len(),
            pages: 1,
            stage: Stage::Feeding,
        };
    }
    let before = p.reader;
    Progress {
        reader: next,
        header_size: p.header_size,
        pages: std::num::wrapping_add_u64(p.pages, 1),
        stage: comment_stage(before, next, body),
    }
}

fn fed_page(p: Progress, fed: Result<Fed, Refusal>, body: &[u8], header: &mut [u8]) -> Progress {
    match fed {
        Ok(fed) => accepted(p, fed.reader, body, header),
        Err(why) => stopped(p, Stage::Refused(refusal::number(why))),
    }
}

// Feeding asks for lists with room for a page's packets, but no packet of a header is listed.
fn feed_page(p: Progress, page: &[u8], carry: &mut [u8], header: &mut [u8]) -> Progress {
    let reader = p.reader;
    let mut ends = [0u64; LIST_MAX];
    let mut lengths = [0u64; LIST_MAX];
    let mut kept = [0u64; LIST_MAX];
    let mut frames = [0u64; LIST_MAX];
    let fed = reader::feed(
        reader,
        page,
        carry,
        &mut ends,
        &mut lengths,
        &mut kept,
        &mut frames,
    );
    fed_page(p, fed, page_layout::body_of(page), header)
}

// At the end of the input, where n bytes of a page that is not whole are left.
fn ended(p: Progress, n: usize) -> Progress {
    if n == 0 {
        return stopped(p, Stage::Cut);
    }
    let why = feed_partial::refusal_of_rest(p.reader);
    stopped(p, Stage::Refused(refusal::number(why)))
}

// Reads on after the first n bytes.
fn read_turn(streams: Streams, p: Progress, n: usize, buffer: &mut [u8]) -> State {
    match read_after(streams, buffer, n) {
        Got::Bytes(end) => State {
            progress: p,
            start: 0,
            end,
        },
        Got::Nothing => State {
            progress: ended(p, n),
            start: 0,
            end: 0,
        },
        Got::Failed => State {
            progress: stopped(p, Stage::Unread),
            start: 0,
            end: 0,
        },
    }
}

// Feeds one page, or reads on where it is not whole yet.
fn turn(
    streams: Streams,
    s: State,
    buffer: &mut [u8],
    carry: &mut [u8],
    header: &mut [u8],
) -> State {
    let p = s.progress;
    match page_end::end_at(octets::part_of(buffer, 0, s.end), s.start) {
        Some(last) => {
            let size = std::num::wrapping_sub_usize(last, s.start);
            State {
                progress: feed_page(p, octets::part_of(buffer, s.start, size), carry, header),
                start: last,
                end: s.end,
            }
        }
        None => {
            let n = buffers::move_down(buffer, s.start, s.end);
            read_turn(streams, p, n, buffer)
        }
    }
}

fn goes_on(p: Progress) -> bool {
    let stage = p.stage;
    matches!(stage, Stage::Feeding)
}

// Nothing is fed yet, and no header is known.
fn begin() -> State {
    State {
        progress: Progress {
            reader: reader::start(),
            header_size: 0,
            pages: 0,
            stage: Stage::Feeding,
        },
        start: 0,
        end: 0,
    }
}

// Reads and feeds until the stage is another. The identification header's packet is left in `header`.
pub(crate) fn run(
    streams: Streams,
    buffer: &mut [u8],
    carry: &mut [u8],
    header: &mut [u8],
) -> Progress {
    let mut turns = u64::MAX;
    let mut s = begin();
    while turns > 0 {
        s = turn(streams, s, buffer, carry, header);
        let p = s.progress;
        if !goes_on(p) {
            return p;
        }
        turns -= 1;
    }
    s.progress
}
