// The lines of a listing, as text. Each function puts one whole line into a lent buffer from place `at` on, and answers the
// place after it. Where the line does not fit, it puts nothing and answers `at`.
#![tactic(auto)]

ghost use Rattle.std.specs.Prelude.{◌≡◌, ◌++◌, ◌+◌, ltb, length};
ghost use Rattle.text_put.specs.Writing.{Put, Laid};
ghost use Rattle.list_lines.specs.Lines.{first_line, entry_line, total_line, refused_line, named, HasNamed, HasPair};

// No line of a packet is longer: four numbers of 20 digits, three spaces and a line feed.
pub const LONGEST: usize = 84;

// A name, and the digits of a number after it.
fn put_named(out: &mut [u8], at: usize, name: &[u8], x: u64) -> usize
    requires { HasNamed out.old at name.now x }
    ensures { Laid out.old at (named name.now x) result out.new }
{
    octets::copy_at(out, at, name);
    text_decimal::put_decimal(out, at + name.len(), x)
}

// Two numbers, each after its name.
fn put_pair(out: &mut [u8], at: usize, first: &[u8], x: u64, second: &[u8], y: u64) -> usize
    requires { HasPair out.old at first.now x second.now y }
    ensures { Laid out.old at (named first.now x ++ named second.now y) result
        out.new }
{
    let next = put_named(out, at, first, x);
    put_named(out, next, second, y)
}

// Whether an entry's line passes the end of the buffer. Its digits are counted only where fewer bytes are left than the
// longest line has.
fn lacks_entry(len: usize, at: usize, end: u64, samples: u64, frames: u64, kept: u64) -> bool
    ensures { result ≡ ltb len (at + length (entry_line end samples frames kept)) }
{
    if !octets::is_short(len, at, LONGEST) {
        return false;
    }
    octets::is_short(
        len,
        at,
        text_decimal::digits_of(end)
            + text_decimal::digits_of(samples)
            + text_decimal::digits_of(frames)
            + text_decimal::digits_of(kept)
            + 4,
    )
}

fn lacks_total(len: usize, at: usize, kept: u64, skipped: u64, trimmed: u64, hole: u64) -> bool
    ensures { result ≡ ltb len (at + length (total_line kept skipped trimmed hole)) }
{
    octets::is_short(
        len,
        at,
        36 + text_decimal::digits_of(kept)
            + text_decimal::digits_of(skipped)
            + text_decimal::digits_of(trimmed)
            + text_decimal::digits_of(hole),
    )
}

fn lacks_refused(len: usize, at: usize, number: u64, page: u64) -> bool
    ensures { result ≡ ltb len (at + length (refused_line number page)) }
{
    octets::is_short(
        len,
        at,
        15 + text_decimal::digits_of(number) + text_decimal::digits_of(page),
    )
}

// The line above all entries: "end dur frames kept" (RULES.md, 11). Where it does not fit, nothing is put.
// Example: `put_first(out, 0)` answers 20, where `out` has 20 bytes or more.
pub fn put_first(out: &mut [u8], at: usize) -> usize
    ensures { Put out.old at first_line result out.new }
{
    if octets::is_short(out.len(), at, 20) {
        return at;
    }
    octets::copy_at(out, at, b"end dur frames kept\n");
    at + 20
}

// The line of a packet: its end stamp, its length, how many frames it has and how many of its samples are kept. Where it
// does not fit, nothing is put. Example: `put_entry(out, 0, 960, 960, 1, 648)` puts "960 960 1 648".
pub fn put_entry(out: &mut [u8], at: usize, end: u64, samples: u64, frames: u64, kept: u64) -> usize
    ensures { Put out.old at (entry_line end samples frames kept) result out.new }
{
    if lacks_entry(out.len(), at, end, samples, frames, kept) {
        return at;
    }
    let second = text_decimal::put_ended(out, at, end, b' ');
    let third = text_decimal::put_ended(out, second, samples, b' ');
    let fourth = text_decimal::put_ended(out, third, frames, b' ');
    text_decimal::put_ended(out, fourth, kept, b'\n')
}

// The last line of a listing that was not refused. Example: "total kept=648 skipped=312 trimmed=0 hole=0".
pub fn put_total(
    out: &mut [u8],
    at: usize,
    kept: u64,
    skipped: u64,
    trimmed: u64,
    hole: u64,
) -> usize
    ensures { Put out.old at (total_line kept skipped trimmed hole) result out.new }
{
    if lacks_total(out.len(), at, kept, skipped, trimmed, hole) {
        return at;
    }
    let middle = put_pair(out, at, b"total kept=", kept, b" skipped=", skipped);
    let last = put_pair(out, middle, b" trimmed=", trimmed, b" hole=", hole);
    out[last] = b'\n';
    last + 1
}

// The last line of a listing that ends with a refusal, by its number, of a page, counted from 0. Example: "refused 4 page 2".
pub fn put_refused(out: &mut [u8], at: usize, number: u64, page: u64) -> usize
    ensures { Put out.old at (refused_line number page) result out.new }
{
    if lacks_refused(out.len(), at, number, page) {
        return at;
    }
    let last = put_pair(out, at, b"refused ", number, b" page ", page);
    out[last] = b'\n';
    last + 1
}
