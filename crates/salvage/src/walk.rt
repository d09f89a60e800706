// A walk over the kept pages: what is told of each, and what they come to (RULES.md, 16).
ghost use Rattle.std.specs.Prelude.{◌≡◌, ◌+◌, ◌-◌, ◌^◌, ◌<◌, true, false, length, nat_lt};
ghost use Rattle.octets.specs.Pick.{pick};
ghost use Rattle.page_lacing.specs.Lacing.{unfinished};
ghost use Rattle.stream.specs.Page.{page_of};
ghost use Rattle.page_size.specs.Size.{is_one_page};
ghost use Rattle.salvage_rules.specs.Tidy.{first_bytes};
ghost use Rattle.salvage_page.specs.Statements.{kept_size};
ghost use Rattle.salvage.specs.Code.{begun, walk_by, Kept, CanWalk, Walked};
ghost use Rattle.salvage.specs.Columns.{One, one_if, line_count, changes_of};

use page_layout::LACING_AT;
use salvage_list::Listed;
use salvage_rules::{Form, Prior};

// A walk over the kept pages, after some of them.
#[derive(Clone, Copy)]
pub(crate) struct Walk {
    pub(crate) prior: Prior,
    // the packet that goes on after the last of them is cut by a later break
    pub(crate) cut: bool,
    // the index from which the next page is looked for
    pub(crate) at: usize,
    // the number that it gets
    pub(crate) number: u32,
    // where the last page ends in the input
    pub(crate) end: usize,
    // how many bytes and lines these pages come to
    pub(crate) bytes: usize,
    pub(crate) lines: usize,
}

// What is told of one page.
#[derive(Clone, Copy)]
pub(crate) struct Changes {
    // bytes before it are skipped, and how many
    pub(crate) skip: bool,
    pub(crate) gap: u64,
    // it has another number
    pub(crate) renumbered: bool,
    // its continued mark is cleared
    pub(crate) cleared: bool,
    // its leading piece is removed, and its bytes
    pub(crate) lead: bool,
    pub(crate) first: u64,
    // its trailing piece is removed, and its bytes
    pub(crate) trail: bool,
    pub(crate) last: u64,
}

// 1 where it holds.
fn one(holds: bool) -> usize
    ensures { One holds result }
{
    if holds { 1 } else { 0 }
}

// How many lines tell of a page.
fn lines_of(c: Changes) -> usize
    ensures { result ≡ line_count c }
{
    one(c.skip) + one(c.renumbered) + one(c.cleared) + one(c.lead) + one(c.trail)
}

// How many bytes lie between two places.
pub(crate) fn gap(end: u64, place: u64) -> u64
    ensures { result ≡ place - end }
{
    if end < place { place - end } else { 0 }
}

// The bytes of the leading piece, where it is removed.
fn first_of(page: &[u8], lead: bool) -> usize
    ensures { result ≡ pick lead (first_bytes (page_of page.now).lacing) 0 }
{
    if lead {
        return salvage_page::first_cut(page);
    }
    0
}

// Those of the trailing piece.
fn last_of(page: &[u8], trail: bool) -> usize
    ensures { result ≡ pick trail (unfinished (page_of page.now).lacing) 0 }
{
    if trail {
        return salvage_page::last_cut(page);
    }
    0
}

// Whether a leading piece is removed: a page without lacing values has none.
fn has_first(page: &[u8], lead: bool) -> bool
    ensures { result ≡ pick lead (nat_lt 0 (length (page_of page.now).lacing)) false }
{
    if lead {
        return page_layout::lacing_of(page).len() > 0;
    }
    false
}

// What is told of the next page, after the walk.
pub(crate) fn changes_of(page: &[u8], next: Listed, walk: Walk) -> Changes
    ensures { result ≡ changes_of (page_of page.now).lacing next walk }
{
    let form = next.form;
    let link = next.link;
    let place = next.place;
    let end = walk.end as u64;
    Changes {
        skip: end < place,
        gap: gap(end, place),
        renumbered: walk.number != link.sequence,
        cleared: form.lead,
        lead: has_first(page, form.lead),
        first: first_of(page, form.lead) as u64,
        trail: form.trail,
        last: last_of(page, form.trail) as u64,
    }
}

// ---- the walk

// A walk before the first page.
pub(crate) fn begin() -> Walk
    ensures { result ≡ begun }
{
    Walk {
        prior: salvage_page::no_prior(),
        cut: false,
        at: 0,
        number: 0,
        end: 0,
        bytes: 0,
        lines: 0,
    }
}

// How many bytes the page comes to.
fn size_of(page: &[u8], form: Form) -> usize
    requires { is_one_page page.now ≡ true }
    ensures { result ≡ kept_size form page.now }
{
    LACING_AT
        + salvage_page::lacing_kept(page, form).len()
        + salvage_page::body_kept(page, form).len()
}

// The walk past one page more, of which this is told.
pub(crate) fn walk_on(page: &[u8], next: Listed, c: Changes, walk: Walk) -> Walk
    requires { CanWalk page.now next walk }
    ensures { result ≡ walk_by walk next (next.place + length page.now)
        (kept_size next.form page.now) (line_count c) }
{
    let size = size_of(page, next.form);
    Walk {
        prior: salvage_page::next_prior(walk.prior, next.link),
        cut: next.cut,
        at: next.index + 1,
        number: std::num::wrapping_add_u32(walk.number, 1),
        end: next.place as usize + page.len(),
        bytes: walk.bytes + size,
        lines: walk.lines + lines_of(c),
    }
}

// Walks over all pages of the list.
pub(crate) fn walk_all(buffer: &[u8], list: &[u64]) -> Walk
    requires { Kept buffer.now list.now }
    ensures { Walked buffer.now list.now result }
{
    let mut walk = begin();
    loop {
        let next = salvage_list::listed_at(buffer, list, walk.prior, walk.cut, walk.at);
        if next.index >= list.len() {
            return walk;
        }
        let page = salvage_list::page_at(buffer, next.place);
        walk = walk_on(page, next, changes_of(page, next, walk), walk);
    }
}

// How many lines the pages come to, in an input of n bytes.
pub(crate) fn lines_in(walk: Walk, n: usize) -> usize
    requires { walk.lines + 1 < 2 ^ 64 }
    ensures { result ≡ walk.lines + one_if (nat_lt walk.end n) }
{
    walk.lines + one(walk.end < n)
}
