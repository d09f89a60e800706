// A stream in a lent buffer: judged by feeding its pages, each where it lies, to a reader just started (RULES.md, 15).
#![tactic(auto)]

ghost use Rattle.std.specs.Prelude.{◌≡◌, false};
ghost use Rattle.page_crc.specs.Crc.{page_crc};
ghost use Rattle.stream.specs.Readings.{readings};
ghost use Rattle.stream.specs.Lent.{lent_of, is_short};
ghost use Rattle.reader.specs.Answers.{known_as};
ghost use Rattle.recording.specs.Judging.{judge_buffer};
ghost use Rattle.recording.specs.Answers.{told_judged, at_end, next_as, next_of, SumsFit, Ready, StepIs};

use feed_pages::{PagesFed, Stop};
use limits::PACKET_MAX;
use reader::Reader;
use refusal::Refusal;
use std::ops::ControlFlow;

// How many pages and how many audio packets a whole stream has.
#[derive(Clone, Copy)]
pub struct Whole {
    pub pages: usize,
    pub packets: usize,
}

// A refusal, 2 to 18, and the page so refused, the first being page 0; or 24, and how many pages there are.
#[derive(Clone, Copy)]
pub struct RefusedAt {
    pub why: Refusal,
    pub page: usize,
}

impl From<RefusedAt> for Refusal {
    ghost from_gives = { λ r why. why ≡ r.why };

    fn from(refused: RefusedAt) -> Refusal {
        refused.why
    }
}

// The pages accepted so far: the reader after them, their bytes, how many they are, and how many audio packets they complete.
#[derive(Clone, Copy)]
struct Accepted {
    reader: Reader,
    bytes: usize,
    pages: usize,
    packets: usize,
}

// What follows a run of pages: the pages accepted so far, or the judgement.
type Step = ControlFlow<Result<Whole, RefusedAt>, Accepted>;

// The judgement after the last whole page, where `rest` bytes are left.
fn judge_rest(reader: Reader, rest: usize, pages: usize, packets: usize) -> Result<Whole, RefusedAt>
    ensures { told_judged result ≡ at_end (known_as reader) rest pages packets }
{
    if rest > 0 {
        return Err(RefusedAt {
            why: feed_partial::refusal_of_rest(reader),
            page: pages,
        });
    }
    if reader::in_headers(reader) {
        return Err(RefusedAt {
            why: Refusal::HeadersIncomplete,
            page: pages,
        });
    }
    Ok(Whole { pages, packets })
}

// What follows a run of pages in a buffer of `len` bytes. `before` are the pages accepted before the run.
fn judge_run(before: Accepted, len: usize, fed: PagesFed) -> Step
    requires { SumsFit before len fed }
    ensures { next_as result ≡ next_of before len fed }
{
    let p = fed.progress;
    let stop = fed.stop;
    let reader = p.reader;
    let bytes = before.bytes + p.bytes;
    let pages = before.pages + p.pages;
    let packets = before.packets + p.packets;
    match stop {
        Stop::Refused(why) => ControlFlow::Break(Err(RefusedAt { why, page: pages })),
        Stop::Cut => ControlFlow::Break(judge_rest(reader, len - bytes, pages, packets)),
        Stop::Full => ControlFlow::Continue(Accepted {
            reader,
            bytes,
            pages,
            packets,
        }),
    }
}

// Feeds the next run of pages.
fn feed_run(
    before: Accepted,
    buffer: &[u8],
    carry: &mut [u8],
    ends: &mut [u64],
    lengths: &mut [u64],
    kept: &mut [u64],
    frames: &mut [u64],
) -> Step
    requires { Ready buffer.now before (lent_of carry.old ends.old lengths.old kept.old frames.old) }
    ensures { StepIs (readings page_crc) buffer.now before carry.old carry.new result }
{
    let at = before.bytes;
    let reader = before.reader;
    let fed = feed_pages::feed_pages(reader, &buffer[at..], carry, ends, lengths, kept, frames);
    judge_run(before, buffer.len(), fed)
}

// The judgement, made in lent memory.
fn judge_in(
    buffer: &[u8],
    carry: &mut [u8],
    ends: &mut [u64],
    lengths: &mut [u64],
    kept: &mut [u64],
    frames: &mut [u64],
) -> Result<Whole, RefusedAt>
    requires { is_short (lent_of carry.old ends.old lengths.old kept.old frames.old) ≡ false }
    ensures { told_judged result ≡ judge_buffer (readings page_crc) buffer.now }
{
    let mut accepted = Accepted {
        reader: reader::start(),
        bytes: 0,
        pages: 0,
        packets: 0,
    };
    loop {
        match feed_run(accepted, buffer, carry, ends, lengths, kept, frames) {
            ControlFlow::Continue(next) => accepted = next,
            ControlFlow::Break(judged) => return judged,
        }
    }
}

// Judges the bytes of a buffer as one stream (RULES.md, 15). Its pages are fed one by one, as `reader::feed` would take them
// with enough memory, and bytes after the last whole page as they are. The first refusal decides: 2 to 18, with its page. 24:
// no page is refused, but the comment header is not complete. Else the stream is whole, also where no page is marked last.
// Example: an empty buffer gives a refusal by 24 at page 0, and the two header pages of a stream, with
// nothing after them, give `Ok(Whole { 2, 0 })`.
pub fn judge(buffer: &[u8]) -> Result<Whole, RefusedAt>
    ensures { told_judged result ≡ judge_buffer (readings page_crc) buffer.now }
{
    let mut carry = [0u8; PACKET_MAX];
    let mut ends = [0u64; 1024];
    let mut lengths = [0u64; 1024];
    let mut kept = [0u64; 1024];
    let mut frames = [0u64; 1024];
    judge_in(
        buffer,
        &mut carry,
        &mut ends,
        &mut lengths,
        &mut kept,
        &mut frames,
    )
}
