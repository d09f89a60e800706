// The listing of an Ogg Opus recording: standard input to one line a packet, `end dur frames kept`, and a last line, the total
// or the refusal that ended it. Pages are fed where they lie in the buffer. Places are cut to their buffers' lengths, so that no
// function has to know what another left.
#![tactic(auto)]

use feed_pages::Stop;
use limits::PACKET_MAX;
use reader::Reader;
use refusal::Refusal;
use std::io::{Error, ErrorKind, Read, Stderr, Stdin, Stdout, Write};

// Standard input, standard output and standard error.
#[derive(Clone, Copy)]
struct Streams {
    input: Stdin,
    output: Stdout,
    errors: Stderr,
}

// How far a listing has come. The bytes of the buffer from `from` to `to` are not fed yet. The places of the lists from
// `listed` to `packets` are not written yet. `filled` bytes of the output are filled. `stop` is why the last run of pages
// stopped, and `pages` is how many pages were accepted so far.
#[derive(Clone, Copy)]
struct Listing {
    reader: Reader,
    from: usize,
    to: usize,
    listed: usize,
    packets: usize,
    filled: usize,
    pages: u64,
    stop: Stop,
}

// What a read gave.
#[derive(Clone, Copy)]
enum Input {
    Bytes(usize),
    End,
    Failed,
}

// The places from `from` to `to` of a list, as far as it has them.
fn part(list: &[u64], from: usize, to: usize) -> &[u64] {
    let end = octets::least(to, list.len());
    let start = octets::least(from, end);
    &list[start..end]
}

// Says on standard error what failed, and why.
fn fail(streams: Streams, what: &str, why: Error) {
    let mut errors = streams.errors;
    let _said = writeln!(errors, "list: {what}: {why}");
}

// Writes the first n bytes of the output.
fn write_out(streams: Streams, out: &[u8], n: usize) -> Result<(), Error> {
    let mut output = streams.output;
    output.write_all(octets::part_of(out, 0, n))
}

// One read, to the place `at` of the buffer. A failure is said on standard error at once: what is listed so far is still written.
fn read_more(streams: Streams, buffer: &mut [u8], at: usize) -> Input {
    let start = octets::least(at, buffer.len());
    let mut input = streams.input;
    match input.read(&mut buffer[start..]) {
        Ok(0) => Input::End,
        Ok(n) => Input::Bytes(std::num::wrapping_add_usize(start, n)),
        Err(why) => {
            if why.kind() == ErrorKind::Interrupted {
                return Input::Bytes(start);
            }
            fail(streams, "cannot read standard input", why);
            Input::Failed
        }
    }
}

// The same listing with other bytes to feed, and another reason to go on or to end.
fn moved(w: Listing, from: usize, to: usize, stop: Stop) -> Listing {
    let reader = w.reader;
    Listing {
        reader,
        from,
        to,
        listed: w.listed,
        packets: w.packets,
        filled: w.filled,
        pages: w.pages,
        stop,
    }
}

// The next run of pages.
fn feed_more(
    w: Listing,
    buffer: &[u8],
    carry: &mut [u8],
    ends: &mut [u64],
    lengths: &mut [u64],
    kept: &mut [u64],
    frames: &mut [u64],
) -> Listing {
    let to = octets::least(w.to, buffer.len());
    let from = octets::least(w.from, to);
    let fed = feed_pages::feed_pages(
        w.reader,
        &buffer[from..to],
        carry,
        ends,
        lengths,
        kept,
        frames,
    );
    let p = fed.progress;
    let stop = fed.stop;
    let reader = p.reader;
    Listing {
        reader,
        from: std::num::wrapping_add_usize(from, p.bytes),
        to,
        listed: 0,
        packets: p.packets,
        filled: w.filled,
        pages: std::num::wrapping_add_u64(w.pages, p.pages as u64),
        stop,
    }
}

// The lines of packets, as many as the output has room for; where it has no more, it is written and emptied.
fn put_lines(
    streams: Streams,
    w: Listing,
    ends: &[u64],
    lengths: &[u64],
    kept: &[u64],
    frames: &[u64],
    out: &mut [u8],
) -> Result<Listing, Error> {
    let put = list_entries::put_entries(
        out,
        w.filled,
        part(ends, w.listed, w.packets),
        part(lengths, w.listed, w.packets),
        part(frames, w.listed, w.packets),
        part(kept, w.listed, w.packets),
    );
    let listed = std::num::wrapping_add_usize(w.listed, put.count);
    let mut filled = put.at;
    if listed < w.packets {
        write_out(streams, out, filled)?;
        filled = 0;
    }
    let reader = w.reader;
    let stop = w.stop;
    Ok(Listing {
        reader,
        from: w.from,
        to: w.to,
        listed,
        packets: w.packets,
        filled,
        pages: w.pages,
        stop,
    })
}

fn end_with_refusal(
    streams: Streams,
    w: Listing,
    why: Refusal,
    out: &mut [u8],
) -> Result<(), Error> {
    write_out(streams, out, w.filled)?;
    let n = list_lines::put_refused(out, 0, refusal::number(why) as u64, w.pages);
    write_out(streams, out, n)
}

fn end_with_total(streams: Streams, w: Listing, out: &mut [u8]) -> Result<(), Error> {
    write_out(streams, out, w.filled)?;
    let s = reader::totals(w.reader);
    let n = list_lines::put_total(out, 0, s.kept, s.skipped, s.trimmed, s.hole);
    write_out(streams, out, n)
}

// More input, where the last page of the buffer is not whole; none where the listing has ended.
fn read_on(
    streams: Streams,
    w: Listing,
    buffer: &mut [u8],
    out: &mut [u8],
) -> Result<Option<Listing>, Error> {
    let n = buffers::move_down(buffer, w.from, w.to);
    match read_more(streams, buffer, n) {
        Input::Bytes(to) => return Ok(Some(moved(w, 0, to, Stop::Full))),
        Input::End => {
            if n == 0 {
                end_with_total(streams, w, out)?;
            } else {
                end_with_refusal(streams, w, feed_partial::refusal_of_rest(w.reader), out)?;
            }
        }
        Input::Failed => write_out(streams, out, w.filled)?,
    }
    Ok(None)
}

// The listing after one step more: none where it has ended.
fn turn(
    streams: Streams,
    w: Listing,
    buffer: &mut [u8],
    carry: &mut [u8],
    ends: &mut [u64],
    lengths: &mut [u64],
    kept: &mut [u64],
    frames: &mut [u64],
    out: &mut [u8],
) -> Result<Option<Listing>, Error> {
    if w.listed < w.packets {
        let next = put_lines(streams, w, ends, lengths, kept, frames, out)?;
        return Ok(Some(next));
    }
    let stop = w.stop;
    match stop {
        Stop::Full => {
            let next = feed_more(w, buffer, carry, ends, lengths, kept, frames);
            Ok(Some(next))
        }
        Stop::Cut => read_on(streams, w, buffer, out),
        Stop::Refused(why) => {
            end_with_refusal(streams, w, why, out)?;
            Ok(None)
        }
    }
}

// No input has as many turns as are counted here: the count only says that the loop ends.
fn run(
    streams: Streams,
    start: Listing,
    buffer: &mut [u8],
    carry: &mut [u8],
    ends: &mut [u64],
    lengths: &mut [u64],
    kept: &mut [u64],
    frames: &mut [u64],
    out: &mut [u8],
) -> Result<(), Error> {
    let mut w = start;
    let mut turns = u64::MAX;
    while turns > 0 {
        match turn(streams, w, buffer, carry, ends, lengths, kept, frames, out)? {
            Some(next) => w = next,
            None => return Ok(()),
        }
        turns -= 1;
    }
    Ok(())
}

fn main(rt: HostRuntime) {
    let streams = Streams {
        input: rt.stdin(),
        output: rt.stdout(),
        errors: rt.stderr(),
    };
    let mut buffer = [0u8; 262144];
    let mut carry = [0u8; PACKET_MAX];
    let mut ends = [0u64; 1024];
    let mut lengths = [0u64; 1024];
    let mut kept = [0u64; 1024];
    let mut frames = [0u64; 1024];
    let mut out = [0u8; 131072];
    let filled = list_lines::put_first(&mut out, 0);
    let start = Listing {
        reader: reader::start(),
        from: 0,
        to: 0,
        listed: 0,
        packets: 0,
        filled,
        pages: 0,
        stop: Stop::Cut,
    };
    let listed = run(
        streams,
        start,
        &mut buffer,
        &mut carry,
        &mut ends,
        &mut lengths,
        &mut kept,
        &mut frames,
        &mut out,
    );
    if let Err(why) = listed {
        fail(streams, "cannot write", why);
    }
}
