// The lines of several packets of a listing, put into a lent buffer in one call. The end stamps of packets that follow each
// other have all but a few digits in common, and nearly all packets of a recording have one length and as many frames. So
// the bytes of a line are kept for the next one, and only the last four digits of its stamp are new.
#![tactic(auto)]

ghost use Rattle.std.specs.Prelude.{◌≡◌, ◌+◌, ◌-◌, ◌≤◌, ltb, length};
ghost use Rattle.text_put.specs.Writing.{Laid};
ghost use Rattle.list_lines.specs.Lines.{entry_line, longest};
ghost use Rattle.list_entries.specs.Entries.{lines_in, PutLines};
ghost use Rattle.list_entries.specs.Code.{Sound, tail_line, is_again, Stands, Again, Lays};

use list_lines::LONGEST;

// How many lines were put, and the place after them.
#[derive(Clone, Copy)]
pub struct Listed {
    pub count: usize,
    pub at: usize,
}

// Bytes of a line. The stamps from `base` to `base + 9999` have the first `digits` bytes of `upper` in common. After the
// stamp of a packet of `samples` samples in `frames` frames, `kept` of the samples kept, come `bytes` bytes. The first
// eight of these are those of `first`, and the last eight those of `last`. Where `digits` is 0, nothing is kept.
#[derive(Clone, Copy)]
struct Repeat {
    base: u64,
    samples: u64,
    frames: u64,
    kept: u64,
    digits: usize,
    bytes: usize,
    upper: u64,
    first: u64,
    last: u64,
}

// The place after a line, and the line's bytes.
#[derive(Clone, Copy)]
struct Next {
    at: usize,
    repeat: Repeat,
}

fn nothing() -> Repeat
    ensures { Sound result }
{
    Repeat {
        base: 0,
        samples: 0,
        frames: 0,
        kept: 0,
        digits: 0,
        bytes: 0,
        upper: 0,
        first: 0,
        last: 0,
    }
}

fn is_again(c: Repeat, end: u64, samples: u64, frames: u64, kept: u64) -> bool
    ensures { result ≡ is_again c end samples frames kept }
{
    if c.digits == 0 {
        return false;
    }
    if end < c.base {
        return false;
    }
    (end - c.base < 10000) & ((samples == c.samples) & ((frames == c.frames) & (kept == c.kept)))
}

// A line of the bytes in c. Each store writes over what the one before it put past its own bytes.
fn put_again(out: &mut [u8], at: usize, c: Repeat, end: u64) -> usize
    requires { Again out.old at c end }
    ensures { Laid out.old at (entry_line end c.samples c.frames c.kept) result out.new }
{
    let low = at + c.digits;
    let tail = low + 4;
    let next = tail + c.bytes;
    number_writer::put64(out, at, c.upper);
    text_decimal::put_last_four(out, low, end - c.base);
    number_writer::put64(out, tail, c.first);
    number_writer::put64(out, next - 8, c.last);
    next
}

// How many bytes follow the stamp.
fn bytes_after(samples: u64, frames: u64, kept: u64) -> usize
    ensures { result ≡ length (tail_line samples frames kept) }
{
    text_decimal::digits_of(samples)
        + text_decimal::digits_of(frames)
        + text_decimal::digits_of(kept)
        + 4
}

// The bytes of a line that lies from `at` to `next`, where its stamp has 8 to 12 digits and what follows it 8 to 16 bytes.
fn bytes_of(
    out: &[u8],
    at: usize,
    next: usize,
    end: u64,
    samples: u64,
    frames: u64,
    kept: u64,
) -> Repeat
    requires { Stands out.now at next (entry_line end samples frames kept) }
    ensures { Sound result }
{
    if end < 10000000 {
        return nothing();
    }
    if end >= 1000000000000 {
        return nothing();
    }
    let bytes = bytes_after(samples, frames, kept);
    if bytes < 8 {
        return nothing();
    }
    if bytes > 16 {
        return nothing();
    }
    let tail = next - bytes;
    Repeat {
        base: end / 10000 * 10000,
        samples,
        frames,
        kept,
        digits: tail - 4 - at,
        bytes,
        upper: number_reader::number64(out, at),
        first: number_reader::number64(out, tail),
        last: number_reader::number64(out, next - 8),
    }
}

// A line of its numbers, and what is kept of its bytes.
fn put_next(out: &mut [u8], at: usize, end: u64, samples: u64, frames: u64, kept: u64) -> Next
    requires { at + longest ≤ length out.old }
    ensures { Lays out.old at (entry_line end samples frames kept) result out.new }
{
    let next = list_lines::put_entry(out, at, end, samples, frames, kept);
    Next {
        at: next,
        repeat: bytes_of(out, at, next, end, samples, frames, kept),
    }
}

// Whether fewer bytes are left than the longest line has.
fn lacks_line(len: usize, at: usize) -> bool
    ensures { result ≡ ltb (len - at) longest }
{
    octets::is_short(len, at, LONGEST)
}

// The lines of packets from place `at` on, by their end stamps, lengths, frame counts and kept counts, as long as the
// longest line would fit (RULES.md, 11). The shortest of the four lists says how many packets there are.
// Example: the stamps 960 and 1920, the lengths 960 and 960, the frame counts 1 and 1 and the kept counts 648 and 960, from
// place 0 of 100 bytes, put the lines "960 960 1 648" and "1920 960 1 960", and give the count 2 and the place 29.
pub fn put_entries(
    out: &mut [u8],
    at: usize,
    ends: &[u64],
    lengths: &[u64],
    frames: &[u64],
    kept: &[u64],
) -> Listed
    ensures { PutLines out.old at
        (lines_in (length out.old - at) ends.now lengths.now frames.now
        kept.now) result out.new }
{
    let n = octets::least(
        octets::least(ends.len(), lengths.len()),
        octets::least(frames.len(), kept.len()),
    );
    let mut place = at;
    let mut repeat = nothing();
    let mut i = 0;
    while i < n {
        if lacks_line(out.len(), place) {
            return Listed {
                count: i,
                at: place,
            };
        }
        let end = ends[i];
        let samples = lengths[i];
        let count = frames[i];
        let keeps = kept[i];
        i += 1;
        if is_again(repeat, end, samples, count, keeps) {
            place = put_again(out, place, repeat, end);
        } else {
            let next = put_next(out, place, end, samples, count, keeps);
            let again = next.repeat;
            repeat = again;
            place = next.at;
        }
    }
    Listed {
        count: i,
        at: place,
    }
}
