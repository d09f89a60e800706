// Listing the two headers.
use super::{Streams, write};
use head_fields::Head;
use std::io::Error;
use tags_layout::Part;

// How far the listing of a matrix or of comments has come: which entry is next, or where the next comment's length is in the
// packet, and how many bytes of the output buffer are filled.
#[derive(Clone, Copy)]
struct Listing {
    place: usize,
    filled: usize,
}

// ---- the identification header

fn put_format(out: &mut [u8], head: Head) -> usize {
    let at = head_lines::put_number(out, 0, b"version ", head.version as u64);
    let at = head_lines::put_number(out, at, b"channels ", head.channels as u64);
    let at = head_lines::put_number(out, at, b"preskip ", head.preskip as u64);
    head_lines::put_number(out, at, b"rate ", head.rate as u64)
}

fn put_streams(out: &mut [u8], at: usize, head: Head) -> usize {
    let at = head_lines::put_number(out, at, b"family ", head.family as u64);
    let at = head_lines::put_number(out, at, b"streams ", head.streams as u64);
    head_lines::put_number(out, at, b"coupled ", head.coupled as u64)
}

// An entry of the matrix, or, after the last one, the line feed.
fn put_piece(out: &mut [u8], at: usize, header: &[u8], i: usize) -> usize {
    match head_matrix::read_entry(header, i) {
        Ok(x) => head_lines::put_entry(out, at, x),
        Err(_) => text_put::put_bytes(out, at, b"\n"),
    }
}

// The next piece of the matrix. Where it does not fit after the others, those are written first.
fn list_piece(
    streams: Streams,
    l: Listing,
    header: &[u8],
    out: &mut [u8],
) -> Result<Listing, Error> {
    let place = std::num::wrapping_add_usize(l.place, 1);
    let filled = put_piece(out, l.filled, header, l.place);
    if filled > l.filled {
        return Ok(Listing { place, filled });
    }
    write(streams, out, l.filled)?;
    Ok(Listing {
        place,
        filled: put_piece(out, 0, header, l.place),
    })
}

// The line of a matrix of n entries, after the first `at` bytes, which are written with it: its pieces are these and a line feed.
fn list_matrix(
    streams: Streams,
    at: usize,
    n: usize,
    header: &[u8],
    out: &mut [u8],
) -> Result<(), Error> {
    let filled = text_put::put_bytes(out, at, b"matrix");
    let mut l = Listing { place: 0, filled };
    for _ in 0..n {
        l = list_piece(streams, l, header, out)?;
    }
    let end = list_piece(streams, l, header, out)?;
    write(streams, out, end.filled)
}

// Its lines are written before those of the comment header, so that a matrix leaves the vendor all of the buffer.
fn list_head(streams: Streams, header: &[u8], out: &mut [u8]) -> Result<(), Error> {
    let read = head_reader::read_head(header);
    let head = read.head;
    let at = put_format(out, head);
    let at = head_lines::put_gain(out, at, head.gain);
    let at = put_streams(out, at, head);
    let n = head_matrix::matrix(header).len() / 2;
    if n > 0 {
        return list_matrix(streams, at, n, header, out);
    }
    let filled = head_lines::put_mapping(out, at, head);
    write(streams, out, filled)
}

// ---- the comment header

// The text whose length is at this place; empty where it passes the end.
fn part_at(packet: &[u8], place: usize) -> Part {
    tags_layout::find_text(packet, place).unwrap_or(Part { start: 0, size: 0 })
}

// The next comment. Where its line does not fit after the others, those are written first.
fn list_comment(
    streams: Streams,
    l: Listing,
    packet: &[u8],
    out: &mut [u8],
) -> Result<Listing, Error> {
    let p = part_at(packet, l.place);
    let comment = octets::part_of(packet, p.start, p.size);
    let place = std::num::wrapping_add_usize(p.start, p.size);
    let filled = tags_lines::put_comment(out, l.filled, comment);
    if filled > l.filled {
        return Ok(Listing { place, filled });
    }
    write(streams, out, l.filled)?;
    Ok(Listing {
        place,
        filled: tags_lines::put_comment(out, 0, comment),
    })
}

fn put_vendor(out: &mut [u8], packet: &[u8]) -> usize {
    let vendor = part_at(packet, 8);
    tags_lines::put_text(
        out,
        0,
        b"vendor ",
        octets::part_of(packet, vendor.start, vendor.size),
        b"\n",
    )
}

fn list_tags(streams: Streams, packet: &[u8], out: &mut [u8]) -> Result<(), Error> {
    let n = tags_reader::read_tags(packet).unwrap_or(0);
    let at = put_vendor(out, packet);
    let filled = head_lines::put_number(out, at, b"comments ", n as u64);
    let mut l = Listing {
        place: tags_layout::first_comment(packet),
        filled,
    };
    for _ in 0..n {
        l = list_comment(streams, l, packet, out)?;
    }
    write(streams, out, l.filled)
}

// ---- both

// The output buffer has room for any line but that of a matrix, which is put in pieces: a packet has at most 61,440 bytes, and
// an escape four for each.
pub(crate) fn list(streams: Streams, header: &[u8], packet: &[u8]) -> Result<(), Error> {
    let mut out = [0u8; 262144];
    list_head(streams, header, &mut out)?;
    list_tags(streams, packet, &mut out)
}

pub(crate) fn list_refused(streams: Streams, number: u8, page: u64) -> Result<(), Error> {
    let mut out = [0u8; 64];
    let n = list_lines::put_refused(&mut out, 0, number as u64, page);
    write(streams, &out, n)
}
