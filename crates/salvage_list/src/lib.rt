// The list of the pages of a salvage as places of the buffer in a lent list (RULES.md, 16): where a page counts as missing, its
// place is a number that is no place.
#![tactic(auto)]

ghost use Rattle.octets.specs.Given.{given};
ghost use Rattle.std.specs.Prelude.{suc, ◌+◌, ◌<◌, ◌^◌, ◌≡◌, get_or, drop, set};
ghost use Rattle.page_crc.specs.Crc.{page_crc};
ghost use Rattle.page_crc.specs.Sliced.{page_sliced};
ghost use Rattle.page_crc_tables.specs.Table.{entry_in};
ghost use Rattle.salvage_rules.specs.Good.{good_pages, serial_in, of_serial};
ghost use Rattle.salvage_rules.specs.Links.{link_cut};
ghost use Rattle.salvage_rules.specs.Listed.{bytes_at, listed_in};
ghost use Rattle.salvage_list.specs.Next.{next_listed, is_known, known_cut, ListedIs};
ghost use Rattle.salvage_list.specs.Collect.{stream_pages, seen_at, Kept, Collected};

use page_layout::PageHeader;
use salvage_rules::{Form, Link, Prior};

// What stands in a list of pages in place of a page that counts as missing: no place of a buffer. Stays a number: the list is
// lent across C (embulgri_salvage).
pub const MISSING: u64 = 18446744073709551615;

// A page of a list: its index and its place there, what joins it to its neighbours, whether the packet that goes on after it is
// cut by a later break, and which of its pieces are removed.
#[derive(Clone, Copy)]
pub struct Listed {
    pub index: usize,
    pub place: u64,
    pub link: Link,
    pub cut: bool,
    pub form: Form,
}

// The fields of a page, and the place after it.
#[derive(Clone, Copy)]
struct Seen {
    header: PageHeader,
    end: usize,
}

// The bytes of the page that starts at this place of the buffer (RULES.md, 16); none where it is not whole in the buffer, or the
// place is past its end. It refuses nothing: 27 bytes or more that begin no page are taken up to the end of the buffer.
// Example: of "x" and a page of 27 bytes, `page_at(buffer, 1)` is the page, and `page_at(buffer, 2)` is empty.
pub fn page_at(buffer: &[u8], place: u64) -> &[u8]
    ensures { result.now ≡ bytes_at buffer.now place }
{
    let at = place as usize;
    match page_end::end_at(buffer, at) {
        Some(end) => octets::part_of(buffer, at, end - at),
        None => octets::part_of(buffer, at, 0),
    }
}

// The least index at or after `from` at which the list has a page; the list's length where there is none, or where `from` is
// past it (RULES.md, 16). It refuses nothing.
// Example: of the places 0, `MISSING` and 90, `next_listed(list, 1)` is 2, and `next_listed(list, 3)` is 3.
pub fn next_listed(list: &[u64], from: usize) -> usize
    ensures { result ≡ next_listed list.now from }
{
    let mut at = octets::least(from, list.len());
    let index = loop {
        if at >= list.len() {
            break list.len();
        }
        if list[at] != MISSING {
            break at;
        }
        at += 1;
    };
    index
}

// The fields of the page at a place, and where it ends.
fn seen_at(buffer: &[u8], place: usize) -> Seen
    ensures { result ≡ seen_at buffer.now place }
{
    let page = page_at(buffer, place as u64);
    let header = page_layout::header_of(page);
    let end = place + page.len();
    Seen { header, end }
}

// The serial of the first good page with a first-page mark.
fn serial_of(tables: &[u32; 4096], buffer: &[u8]) -> Option<u32>
    ensures { given result ≡ serial_in (good_pages (page_sliced (entry_in tables.now)) buffer.now) }
{
    let mut place = salvage_search::next_page_with(tables, buffer, 0);
    while place < buffer.len() {
        let seen = seen_at(buffer, place);
        if page_flags::is_first_page(seen.header.flags) {
            return Some(seen.header.serial);
        }
        place = salvage_search::next_page_with(tables, buffer, seen.end);
    }
    None
}

// Stores a number at an index of a list, and nothing where the list has no such index (RULES.md, 16). It refuses nothing.
// Example: of the places 0 and 90, `store_at(list, 1, MISSING)` makes 0 and `MISSING`; `store_at(list, 2, 7)` leaves them.
pub fn store_at(list: &mut [u64], i: usize, x: u64)
    ensures { list.new ≡ set list.old i x }
{
    lists::store_at(list, i, x);
}

// Stores a place after `count` others where it is wanted, and tells how many are stored.
fn keep(work: &mut [u64], count: usize, place: u64, wanted: bool) -> usize
    requires { count + 1 < 2 ^ 64 }
    ensures { Kept wanted count place result work.old work.new }
{
    if wanted {
        store_at(work, count, place);
        return count + 1;
    }
    count
}

// Collects the good pages of a serial.
fn collect_serial(tables: &[u32; 4096], buffer: &[u8], work: &mut [u64], serial: u32) -> usize
    ensures { Collected (of_serial serial (good_pages (page_sliced (entry_in tables.now)) buffer.now)) result
        work.old work.new }
{
    let mut count = 0;
    let mut place = salvage_search::next_page_with(tables, buffer, 0);
    while place < buffer.len() {
        let seen = seen_at(buffer, place);
        count = keep(work, count, place as u64, seen.header.serial == serial);
        place = salvage_search::next_page_with(tables, buffer, seen.end);
    }
    count
}

// The same as `collect`, by lent tables.
fn collect_with(tables: &[u32; 4096], buffer: &[u8], work: &mut [u64]) -> usize
    ensures { Collected (stream_pages (page_sliced (entry_in tables.now)) buffer.now) result
        work.old work.new }
{
    match serial_of(tables, buffer) {
        Some(serial) => collect_serial(tables, buffer, work, serial),
        None => 0,
    }
}

// Collects the good pages of the stream that is salvaged, those with the serial of the first good page with a first-page mark
// (RULES.md, 16). It tells how many there are and stores their places, in order, in the first places of the list as far as it
// goes; the rest of the list stays. It refuses nothing: where no good page has the mark, there is no page.
// Example: of a page of 27 bytes with a first-page mark, a damaged one of 30 bytes and a good one of the same serial, with a list
// of two places it is 2, and the list is 0 and 57; with a list of one place it is 2 too, and the list is 0.
pub fn collect(buffer: &[u8], work: &mut [u64]) -> usize
    ensures { Collected (stream_pages page_crc buffer.now) result work.old work.new }
{
    let tables = page_crc_tables::table::tables();
    collect_with(&tables, buffer, work)
}

// Whether the packet that goes on after a page is cut by a later break (RULES.md, 16), where the pages after it are those of the
// list from `from` on. It looks on while the packet goes through a page, and not at all where none goes on; the end of the list
// is no break. It refuses nothing.
// Example: after page 2 a packet goes on, page 3 continues it and has the one lacing value 255, and the list has pages 3 and 5
// from `from` on: it is true. Without page 5 it is false.
pub fn is_cut_after(buffer: &[u8], list: &[u64], link: Link, from: usize) -> bool
    ensures { result ≡ link_cut link (listed_in buffer.now (drop from list.now)) }
{
    let mut last = link;
    let mut at = from;
    while last.onward {
        let index = next_listed(list, at);
        if index >= list.len() {
            return false; // the end of the list is no break
        }
        let next = salvage_page::link_of(page_at(buffer, list[index]));
        if !salvage_page::follows(last, next) {
            return true;
        }
        if !next.through {
            return false; // the packet ends there, or is another
        }
        last = next;
        at = index + 1;
    }
    false
}

// Whether the packet that goes on after a page comes from the page before: then it is known already whether it is cut.
fn is_known(prior: Prior, link: Link) -> bool
    ensures { result ≡ is_known prior link }
{
    if !prior.any {
        return false;
    }
    let before = prior.link;
    if !before.onward {
        return false;
    }
    if !salvage_page::follows(before, link) {
        return false;
    }
    link.through
}

// Whether the packet that goes on after the page at an index is cut by a later break: as it is known of the page before where
// that packet comes from there, else by the pages after it.
fn cut_by(buffer: &[u8], list: &[u64], prior: Prior, known: bool, link: Link, index: usize) -> bool
    requires { index + 1 < 2 ^ 64 }
    ensures { result ≡ known_cut prior known link (listed_in buffer.now (drop (suc index) list.now)) }
{
    if is_known(prior, link) {
        return known;
    }
    is_cut_after(buffer, list, link, index + 1)
}

// The next page of the list at or after `from`, where `prior` is what is before it, and `known` tells whether the packet that
// goes on after the page before is cut by a later break (RULES.md, 16). Where that packet goes through the page, `cut` is
// `known`, and no page after it is read; else it is told by the pages after it. It refuses nothing: where the list has no such
// page, the index is the list's length, and the rest is told of place 0.
// Example: of the places `MISSING` and 90, `listed_at(buffer, list, salvage_page::no_prior(), false, 0)` has the index 1 and
// place 90.
pub fn listed_at(buffer: &[u8], list: &[u64], prior: Prior, known: bool, from: usize) -> Listed
    ensures { ListedIs buffer.now list.now prior known from result }
{
    let index = next_listed(list, from);
    let place = list.get(index).copied().unwrap_or(0);
    let link = salvage_page::link_of(page_at(buffer, place));
    let cut = cut_by(buffer, list, prior, known, link, index);
    let form = salvage_page::form_of(prior, link, cut);
    Listed {
        index,
        place,
        link,
        cut,
        form,
    }
}
