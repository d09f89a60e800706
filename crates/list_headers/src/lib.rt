// The lines of both headers of a stream, put into a lent buffer one after the other.
#![tactic(auto)]

ghost use Rattle.std.specs.Prelude.{◌≡◌};
ghost use Rattle.text_pieces.specs.Pieces.{laying, lay_all, laid, begun};
ghost use Rattle.head_lines.specs.Lines.{number_line};
ghost use Rattle.list_headers.specs.Text.{format_pieces, sound_pieces, count_pieces, matrix_pieces, table_pieces, head_pieces};
ghost use Rattle.list_headers.specs.Code.{found_entries, found_comments, tags_found, both_found};
ghost use Rattle.list_headers.specs.Writing.{BothPut, Wrote};

use head_fields::Head;
use refusal::Refusal;
use text_pieces::Pieces;

// ---- the identification header

fn put_number(p: Pieces, name: &[u8], x: u64, out: &mut [u8]) -> Pieces
    ensures { laying result out.new ≡ laid (laying p out.old) (number_line name.now x) }
{
    text_pieces::after(p, head_lines::put_number(out, p.at, name, x))
}

fn put_format(p: Pieces, h: Head, out: &mut [u8]) -> Pieces
    ensures { laying result out.new ≡ lay_all (laying p out.old) (format_pieces h) }
{
    let p = put_number(p, b"version ", h.version as u64, out);
    let p = put_number(p, b"channels ", h.channels as u64, out);
    put_number(p, b"preskip ", h.preskip as u64, out)
}

fn put_sound(p: Pieces, h: Head, out: &mut [u8]) -> Pieces
    ensures { laying result out.new ≡ lay_all (laying p out.old) (sound_pieces h) }
{
    let gain = h.gain;
    let p = put_number(p, b"rate ", h.rate as u64, out);
    text_pieces::after(p, head_lines::put_gain(out, p.at, gain))
}

fn put_counts(p: Pieces, h: Head, out: &mut [u8]) -> Pieces
    ensures { laying result out.new ≡ lay_all (laying p out.old) (count_pieces h) }
{
    let p = put_number(p, b"family ", h.family as u64, out);
    let p = put_number(p, b"streams ", h.streams as u64, out);
    put_number(p, b"coupled ", h.coupled as u64, out)
}

// The entries of a matrix, n of them.
fn put_entries(start: Pieces, m: &[u8], n: usize, out: &mut [u8]) -> Pieces
    ensures { laying result out.new ≡ lay_all (laying start out.old) (found_entries m.now n 0) }
{
    let mut p = start;
    let mut left = n;
    let mut i = 0;
    while left > 0 {
        match head_matrix::entry_at(m, i) {
            Ok(x) => p = text_pieces::after(p, head_lines::put_entry(out, p.at, x)),
            Err(_) => return p,
        }
        left -= 1;
        i += 1;
    }
    p
}

// The line of a matrix.
fn put_matrix(p: Pieces, m: &[u8], out: &mut [u8]) -> Pieces
    ensures { laying result out.new ≡ lay_all (laying p out.old) (matrix_pieces m.now) }
{
    let p = text_pieces::after(p, text_put::put_bytes(out, p.at, b"matrix"));
    let p = put_entries(p, m, m.len() / 2, out);
    text_pieces::after(p, text_put::put_bytes(out, p.at, b"\n"))
}

// The line of the mapping, or of the matrix m.
fn put_table(p: Pieces, h: Head, m: &[u8], out: &mut [u8]) -> Pieces
    ensures { laying result out.new ≡ lay_all (laying p out.old) (table_pieces h m.now) }
{
    if head_families::has_matrix(h.family) {
        return put_matrix(p, m, out);
    }
    text_pieces::after(p, head_lines::put_mapping(out, p.at, h))
}

fn put_head(p: Pieces, h: Head, m: &[u8], out: &mut [u8]) -> Pieces
    ensures { laying result out.new ≡ lay_all (laying p out.old) (head_pieces h m.now) }
{
    let p = put_format(p, h, out);
    let p = put_sound(p, h, out);
    let p = put_counts(p, h, out);
    put_table(p, h, m, out)
}

// ---- the comment header

// The lines of n comments, the first one's length at this place, as far as they are found.
fn put_comments(start: Pieces, b: &[u8], n: usize, first: usize, out: &mut [u8]) -> Pieces
    ensures { laying result out.new
        ≡ lay_all (laying start out.old) (found_comments b.now n first) }
{
    let mut p = start;
    let mut left = n;
    let mut place = first;
    while left > 0 {
        match tags_layout::find_text(b, place) {
            Ok(part) => {
                let comment = octets::part_of(b, part.start, part.size);
                p = text_pieces::after(p, tags_lines::put_comment(out, p.at, comment));
                place = part.start + part.size;
            }
            Err(_) => return p,
        }
        left -= 1;
    }
    p
}

fn put_tags(p: Pieces, b: &[u8], n: usize, out: &mut [u8]) -> Pieces
    ensures { laying result out.new ≡ lay_all (laying p out.old) (tags_found b.now n) }
{
    let size = tags_layout::vendor_size(b) as usize;
    let vendor = octets::part_of(b, tags_layout::VENDOR_START, size);
    let p = text_pieces::after(
        p,
        tags_lines::put_text(out, p.at, b"vendor ", vendor, b"\n"),
    );
    let p = put_number(p, b"comments ", n as u64, out);
    put_comments(p, b, n, tags_layout::first_comment(b), out)
}

// ---- both

// The lines of two packets that were read: the fields and the matrix of the first, and n comments of the second.
fn put_both(h: Head, m: &[u8], tags: &[u8], n: usize, out: &mut [u8]) -> Result<usize, Refusal>
    ensures { BothPut (lay_all (begun out.old) (both_found h m.now tags.now n))
        result out.new }
{
    let p = put_head(text_pieces::begin(), h, m, out);
    let p = put_tags(p, tags, n, out);
    if p.whole {
        return Ok(p.at);
    }
    Err(Refusal::ShortOutput)
}

// All lines that show an identification header and a comment header, at the start of `out` (RULES.md, 13). 12 and 13: as
// `head_reader::read_head` tells of the first packet. 14: neither, and the second is no comment header. 22: none of these, and
// the lines do not fit; then `out` has those pieces of them that fit one after the other. Under the other numbers it stays.
// Example: two right packets give `Ok(n)`, where `out` has room for the lines.
pub fn write_headers(head: &[u8], tags: &[u8], out: &mut [u8]) -> Result<usize, Refusal>
    ensures { Wrote head.now tags.now out.old result out.new }
{
    let read = head_reader::read_head(head);
    read.verdict?;
    let n = tags_reader::read_tags(tags)?;
    put_both(read.head, head_matrix::matrix(head), tags, n, out)
}
