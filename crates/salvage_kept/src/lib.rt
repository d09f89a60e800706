// Which pages salvage keeps, in one pass over the list of good pages (RULES.md, 16).
//
// Each page is fed as it comes out, to a reader just started. One that is refused goes missing. Where that changes how the packet
// before it ends, the pass goes back to a saved point, from which no page before it comes out in another way.
#![tactic(auto)]

ghost use Rattle.std.specs.Prelude.{◌≡◌, ℕ, ◌+◌, ◌^◌, ◌<◌, not, ◌&&◌, List, length, take};
ghost use Rattle.octets.specs.Pick.{pick};
ghost use Rattle.stream.specs.State.{in_headers};
ghost use Rattle.stream.specs.Feed.{view};
ghost use Rattle.stream.specs.Lent.{lent_of, at_entry};
ghost use Rattle.salvage_rules.specs.Good.{Good};
ghost use Rattle.salvage_kept.specs.Code.{beginning, point_after, point_past};
ghost use Rattle.salvage_kept.specs.Promises.{AllGood, CanFeed, IsNext, NextFedIs, Onward, Ready, RunIs};
ghost use Rattle.salvage_kept.specs.Promises.{CanDrop, Drops, Settles};
ghost use Rattle.salvage_kept.specs.Found.{FindsKept};

use feed_memory::held_in;
use limits::{LIST_MAX, PACKET_MAX};
use refusal::Refusal;
use salvage_list::{Listed, MISSING};
use salvage_rules::{Link, Prior};
use stream::Core;

// The fewest bytes of a page.
const PAGE_LEAST: usize = 27;

// A point of the pass, after some pages of the list.
#[derive(Clone, Copy)]
struct Point {
    // the reader's core after them
    core: Core,
    prior: Prior,
    // the packet that goes on after the last of them is cut by a later break
    cut: bool,
    // the index from which the next page is looked for
    at: usize,
    // the number that it gets
    number: u32,
}

// Where the pass is, and the point to which it goes back.
#[derive(Clone, Copy)]
struct Pass {
    now: Point,
    saved: Point,
}

// How a run of feedings ends: before the page at this index, which is refused, or at the end of the list.
#[derive(Clone, Copy)]
struct Run {
    pass: Pass,
    index: usize,
}

// ---- points of the pass

// The point before the first page.
fn begin() -> Point
    ensures { result ≡ beginning }
{
    Point {
        core: feed_start::start_core(),
        prior: salvage_page::no_prior(),
        cut: false,
        at: 0,
        number: 0,
    }
}

// The point after one page more.
fn point_after(point: Point, core: Core, next: Listed) -> Point
    requires { next.index + 1 < 2 ^ 64 }
    ensures { result ≡ point_after point core next.link next.cut next.index }
{
    Point {
        core,
        prior: salvage_page::next_prior(point.prior, next.link),
        cut: next.cut,
        at: next.index + 1,
        number: std::num::wrapping_add_u32(point.number, 1),
    }
}

// The same point, the next page being looked for after this index.
fn point_past(point: Point, index: usize) -> Point
    requires { index + 1 < 2 ^ 64 }
    ensures { result ≡ point_past point index }
{
    let core = point.core;
    let prior = point.prior;
    Point {
        core,
        prior,
        cut: point.cut,
        at: index + 1,
        number: point.number,
    }
}

// Whether a packet begins on the page that goes on after it.
fn begins(link: Link) -> bool
    ensures { result ≡ link.onward && not link.through }
{
    if link.onward {
        return !link.through;
    }
    false
}

// Whether two tests agree.
fn agree(a: bool, b: bool) -> bool
    ensures { result ≡ pick a b (not b) }
{
    if a {
        return b;
    }
    !b
}

// Whether a header is due where the pass is.
fn in_headers(pass: Pass) -> bool
    ensures { result ≡ in_headers pass.now.core.phase }
{
    let now = pass.now;
    let core = now.core;
    let phase = core.phase;
    feed_phase::in_headers(phase)
}

// ---- held bytes

// Copies the first n bytes of a buffer to another of the same length.
fn copy_first(n: usize, from: &[u8], to: &mut [u8])
    requires { length from.now ≡ length to.old }
    ensures { take n to.new ≡ take n from.now }
{
    octets::copy_at(to, 0, octets::part_of(from, 0, n));
}

// Copies the held bytes of a core.
fn copy_held(core: Core, from: &[u8], to: &mut [u8])
    requires { length from.now ≡ length to.old }
    ensures { view core to.new ≡ view core from.now }
{
    let pending = core.pending;
    copy_first(held_in(pending), from, to);
}

// ---- the pass

// Feeds the next page of the list. `spare` keeps the held bytes meanwhile, and `keep` has those of the saved point.
fn feed_next(
    buffer: &[u8],
    pass: Pass,
    next: Listed,
    carry: &mut [u8],
    keep: &mut [u8],
    spare: &mut [u8],
    ends: &mut [u64],
    lengths: &mut [u64],
    kept: &mut [u64],
    frames: &mut [u64],
) -> Option<Pass>
    requires { CanFeed next.index carry.old keep.old spare.old }
    ensures next_fed_is { (G : List Good) (ws : List ℕ) →
        IsNext buffer.now G ws pass next (at_entry carry ends lengths kept frames) keep.old →
        NextFedIs buffer.now G ws pass next.index result carry.new keep.new }
    ensures onward { Onward next.index result }
{
    let now = pass.now;
    let core = now.core;
    copy_held(core, carry, spare);
    let page = salvage_list::page_at(buffer, next.place);
    match salvage_feed::feed_tidied(
        core, page, next.form, now.number, carry, ends, lengths, kept, frames,
    ) {
        Some(after) => {
            let point = point_after(now, after, next);
            if begins(next.link) {
                copy_held(core, spare, keep);
                return Some(Pass {
                    now: point,
                    saved: now,
                });
            }
            let saved = pass.saved;
            Some(Pass { now: point, saved })
        }
        None => None,
    }
}

// Feeds pages of the list until one is refused.
fn feed_run(
    buffer: &[u8],
    list: &[u64],
    pass: Pass,
    carry: &mut [u8],
    keep: &mut [u8],
    spare: &mut [u8],
    ends: &mut [u64],
    lengths: &mut [u64],
    kept: &mut [u64],
    frames: &mut [u64],
) -> Run
    requires { Ready buffer.now list.now
        (lent_of carry.old ends.old lengths.old kept.old frames.old) keep.old spare.old }
    ensures { RunIs buffer.now list.now pass carry.old keep.old
        result carry.new keep.new }
{
    let mut pass = pass;
    loop {
        let now = pass.now;
        let next = salvage_list::listed_at(buffer, list, now.prior, now.cut, now.at);
        let index = next.index;
        if index >= list.len() {
            return Run { pass, index };
        }
        match feed_next(
            buffer, pass, next, carry, keep, spare, ends, lengths, kept, frames,
        ) {
            Some(after) => pass = after,
            None => return Run { pass, index },
        }
    }
}

// The refused page at this index goes missing: the pass goes on after it, or back to the saved point.
fn without(
    buffer: &[u8],
    list: &mut [u64],
    pass: Pass,
    index: usize,
    carry: &mut [u8],
    keep: &[u8],
) -> Pass
    requires { CanDrop index list.old carry.old keep.now }
    ensures { Drops buffer.now list.old pass index carry.old keep.now
        result list.new carry.new }
{
    salvage_list::store_at(list, index, MISSING);
    let now = pass.now;
    let prior = now.prior;
    let cut = salvage_list::is_cut_after(buffer, list, prior.link, index + 1);
    let saved = pass.saved;
    if agree(cut, now.cut) {
        return Pass {
            now: point_past(now, index),
            saved,
        };
    }
    copy_held(saved.core, keep, carry);
    Pass {
        now: saved,
        saved: begin(),
    }
}

// Settles the list, in lent memory, and tells whether a header is due after its last page.
fn settle(
    buffer: &[u8],
    list: &mut [u64],
    carry: &mut [u8],
    keep: &mut [u8],
    spare: &mut [u8],
    ends: &mut [u64],
    lengths: &mut [u64],
    kept: &mut [u64],
    frames: &mut [u64],
) -> bool
    requires { Ready buffer.now list.old
        (lent_of carry.old ends.old lengths.old kept.old frames.old) keep.old spare.old }
    ensures { Settles buffer.now list.old list.new result }
{
    let mut pass = Pass {
        now: begin(),
        saved: begin(),
    };
    loop {
        let run = feed_run(
            buffer, list, pass, carry, keep, spare, ends, lengths, kept, frames,
        );
        let index = run.index;
        if index >= list.len() {
            return in_headers(run.pass);
        }
        pass = without(buffer, list, run.pass, index, carry, keep);
    }
}

// Settles the list in memory of its own.
fn settle_list(buffer: &[u8], list: &mut [u64]) -> bool
    requires { AllGood buffer.now list.old }
    ensures { Settles buffer.now list.old list.new result }
{
    let mut carry = [0u8; PACKET_MAX];
    let mut keep = [0u8; PACKET_MAX];
    let mut spare = [0u8; PACKET_MAX];
    let mut ends = [0u64; LIST_MAX];
    let mut lengths = [0u64; LIST_MAX];
    let mut kept = [0u64; LIST_MAX];
    let mut frames = [0u64; LIST_MAX];
    settle(
        buffer,
        list,
        &mut carry,
        &mut keep,
        &mut spare,
        &mut ends,
        &mut lengths,
        &mut kept,
        &mut frames,
    )
}

// Finds the pages that salvage keeps, by their places, in the first places of the work list (RULES.md, 16): a place that is
// `salvage_list::MISSING` has none. 1, before all else: the list has fewer places than a 27th of the buffer's bytes, and stays as
// it is. 24: no page is marked first, or what is kept lacks a whole header; what the list then holds is free, as are its other
// places.
// Example: of the pages of a whole stream it is `Ok(n)`, n being how many they are; of no bytes it is 24.
pub fn find_kept(buffer: &[u8], work: &mut [u64]) -> Result<usize, Refusal>
    ensures { FindsKept buffer.now result work.old work.new }
{
    if work.len() < buffer.len() / PAGE_LEAST {
        return Err(Refusal::ShortRoom);
    }
    let n = salvage_list::collect(buffer, work);
    if settle_list(buffer, &mut work[..n]) {
        return Err(Refusal::HeadersIncomplete);
    }
    Ok(n)
}
