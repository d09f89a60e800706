// Salvage of a stream from damaged bytes (RULES.md, 16): its good pages are kept, renumbered and written to a lent buffer, and
// what was skipped and changed is told in three lent lists.
#![tactic(auto)]

ghost use Rattle.std.specs.Prelude.{◌≡◌};
ghost use Rattle.octets.specs.Octets.{copied};
ghost use Rattle.salvage_feed.specs.Feeding.{tidied_bytes};
ghost use Rattle.salvage.specs.Salvaging.{told_salvaged, Salvages};
ghost use Rattle.salvage.specs.Putting.{is_short, PutsKept};
ghost use Rattle.salvage.specs.Code.{is_same, Kept, CanPut, CanWrite, PagesWritten};

use octets::least;
use refusal::Refusal;
use salvage_list::Listed;
use walk::Walk;

mod lines;
mod walk;

// How many bytes and how many lines were written.
#[derive(Clone, Copy)]
pub struct Salvaged {
    pub bytes: usize,
    pub lines: usize,
}

// ---- pages

// Whether the page comes out as it is.
fn is_same(next: Listed, number: u32) -> bool
    ensures { result ≡ is_same next number }
{
    let form = next.form;
    if form.lead {
        return false;
    }
    if form.trail {
        return false;
    }
    let link = next.link;
    link.sequence == number
}

// The page as it comes out, into its place of the output. One that nothing is done to is copied.
fn put_page(page: &[u8], next: Listed, walk: Walk, out: &mut [u8])
    requires { CanPut page.now next walk out.old }
    ensures { out.new ≡ copied out.old walk.bytes
        (tidied_bytes next.form walk.number page.now) }
{
    let at = walk.bytes;
    if is_same(next, walk.number) {
        octets::copy_at(out, at, page);
        return;
    }
    let _ = salvage_page::write_tidied(page, next.form, walk.number, &mut out[at..]);
}

// Writes all pages of the list, one after the other, and walks over them.
fn write_pages(buffer: &[u8], list: &[u64], out: &mut [u8]) -> Walk
    requires { CanWrite buffer.now list.now out.old }
    ensures { PagesWritten buffer.now list.now out.old result out.new }
{
    let mut walk = walk::begin();
    loop {
        let next = salvage_list::listed_at(buffer, list, walk.prior, walk.cut, walk.at);
        if next.index >= list.len() {
            return walk;
        }
        let page = salvage_list::page_at(buffer, next.place);
        put_page(page, next, walk, out);
        walk = walk::walk_on(page, next, walk::changes_of(page, next, walk), walk);
    }
}

// ---- salvage

// Whether what is written passes an output of `out` bytes or columns of `room` places. As many bytes as the input has and a line
// for each 7 of them and one more always suffice; the pages are measured only where that does not decide.
fn is_short(buffer: &[u8], list: &[u64], out: usize, room: usize) -> bool
    requires { Kept buffer.now list.now }
    ensures { result ≡ is_short buffer.now list.now out room }
{
    let n = buffer.len();
    if out >= n {
        if room > n / 7 {
            return false;
        }
    }
    let walk = walk::walk_all(buffer, list);
    if out < walk.bytes {
        return true;
    }
    room < walk::lines_in(walk, n)
}

// Writes the kept pages and their lines, where both fit.
fn put_kept(
    buffer: &[u8],
    list: &[u64],
    out: &mut [u8],
    what: &mut [u64],
    places: &mut [u64],
    sizes: &mut [u64],
) -> Result<Salvaged, Refusal>
    requires { Kept buffer.now list.now }
    ensures { PutsKept buffer.now list.now (told_salvaged result) out what places sizes }
{
    let room = least(what.len(), least(places.len(), sizes.len()));
    if is_short(buffer, list, out.len(), room) {
        return Err(Refusal::ShortOutput);
    }
    let walk = write_pages(buffer, list, out);
    let lines = walk::lines_in(walk, buffer.len());
    if lines == 0 {
        return Ok(Salvaged {
            bytes: walk.bytes,
            lines: 0,
        });
    }
    lines::write_lines(buffer, list, what, places, sizes);
    Ok(Salvaged {
        bytes: walk.bytes,
        lines,
    })
}

// Saves what can be saved of a stream in a buffer of which some bytes may be damaged (RULES.md, 16): its good pages, without the
// packets of which a page is missing, numbered from 0 and with their checksums made, to the start of `out`; and a line for
// each thing skipped or changed to the first places of the three columns: what it tells (0 skip, 1 number, 2 mark, 3 cut), its
// place in the buffer and its bytes. A whole stream comes out as it is, with no lines.
// 1, before all else: the work list has fewer places than a 27th of the buffer's bytes. 24: no good page is marked first, or what
// is kept lacks a whole header. 22: the output is shorter than what is saved, or one of the columns than the lines are many.
// A refusal writes to the work list alone. What that holds at the end is free.
// Example: of the pages of a whole stream it gives no lines and as many bytes as the buffer has, which are copied to `out`.
pub fn salvage(
    buffer: &[u8],
    work: &mut [u64],
    out: &mut [u8],
    what: &mut [u64],
    places: &mut [u64],
    sizes: &mut [u64],
) -> Result<Salvaged, Refusal>
    ensures { Salvages buffer.now (told_salvaged result) work out what places sizes }
{
    let n = salvage_kept::find_kept(buffer, work)?;
    put_kept(buffer, &work[..n], out, what, places, sizes)
}
