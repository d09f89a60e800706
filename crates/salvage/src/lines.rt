// The lines of what was skipped and changed (RULES.md, 16).
ghost use Rattle.std.specs.Prelude.{◌+◌, ◌^◌, ◌<◌};
ghost use Rattle.salvage_rules.specs.Lines.{skipped};
ghost use Rattle.salvage.specs.Code.{Kept, all_lines};
ghost use Rattle.salvage.specs.Columns.{line_if, LinesStored, LinesPut, changes_lines};

use super::walk;
use super::walk::{Changes, Walk};
use salvage_list::store_at;

// What a line tells: bytes that were skipped, a new number, a mark that was cleared, a piece that was removed.
const SKIP: u64 = 0;

const NUMBER: u64 = 1;

const MARK: u64 = 2;

const CUT: u64 = 3;

// A line into place `at` of the three columns, where it is told, and the place after it.
fn put_line(
    told: bool,
    at: usize,
    kind: u64,
    place: u64,
    bytes: u64,
    what: &mut [u64],
    places: &mut [u64],
    sizes: &mut [u64],
) -> usize
    requires { at + 1 < 2 ^ 64 }
    ensures { LinesPut (line_if told kind place bytes) at result what places sizes }
{
    if told {
        store_at(what, at, kind);
        store_at(places, at, place);
        store_at(sizes, at, bytes);
        return at + 1;
    }
    at
}

// The lines of a page that starts at `place`, from place `at` of the columns on. The page before it ends at `end`.
fn put_changes(
    c: Changes,
    end: u64,
    place: u64,
    at: usize,
    what: &mut [u64],
    places: &mut [u64],
    sizes: &mut [u64],
)
    requires { at + 5 < 2 ^ 64 }
    ensures { LinesStored (changes_lines end place c) at what places sizes }
{
    let at = put_line(c.skip, at, SKIP, end, c.gap, what, places, sizes);
    let at = put_line(c.renumbered, at, NUMBER, place, 4, what, places, sizes);
    let at = put_line(c.cleared, at, MARK, place, 1, what, places, sizes);
    let at = put_line(c.lead, at, CUT, place, c.first, what, places, sizes);
    put_line(c.trail, at, CUT, place, c.last, what, places, sizes);
}

// The line of what is skipped after the last page, in an input of n bytes.
fn put_end(n: usize, walk: Walk, what: &mut [u64], places: &mut [u64], sizes: &mut [u64])
    requires { walk.lines + 1 < 2 ^ 64 }
    ensures { LinesStored (skipped walk.end n) walk.lines what places sizes }
{
    let end = walk.end;
    put_line(
        end < n,
        walk.lines,
        SKIP,
        end as u64,
        walk::gap(end as u64, n as u64),
        what,
        places,
        sizes,
    );
}

// Stores the lines of all pages of the list, and of what is skipped after them.
pub(crate) fn write_lines(
    buffer: &[u8],
    list: &[u64],
    what: &mut [u64],
    places: &mut [u64],
    sizes: &mut [u64],
)
    requires { Kept buffer.now list.now }
    ensures { LinesStored (all_lines buffer.now list.now) 0 what places sizes }
{
    let mut walk = walk::begin();
    loop {
        let next = salvage_list::listed_at(buffer, list, walk.prior, walk.cut, walk.at);
        if next.index >= list.len() {
            put_end(buffer.len(), walk, what, places, sizes);
            return;
        }
        let page = salvage_list::page_at(buffer, next.place);
        let c = walk::changes_of(page, next, walk);
        put_changes(
            c,
            walk.end as u64,
            next.place,
            walk.lines,
            what,
            places,
            sizes,
        );
        walk = walk::walk_on(page, next, c, walk);
    }
}
