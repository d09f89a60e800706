// Seeking in an index of a stream (RULES.md, 15; RFC 7845, 4.6), on plain numbers: a search says which place it looks at next,
// and is told the granule position there. So it serves every layout of an index.
#![tactic(auto)]

ghost use Rattle.octets.specs.Given.{given};
ghost use Rattle.std.specs.Prelude.{◌≡◌, ◌-◌, ◌<◌};
ghost use Rattle.index_search.specs.Search.{place_of, scanned, halved, step_of, scanning_of, fall_of};
ghost use Rattle.index_search.specs.Search.{halving_by, halving_of, answer_of};
ghost use Rattle.index_search.specs.Answers.{told_sought};

use refusal::Refusal;

// A page of a stream where an audio packet completes: its granule position, the place of its first byte, and its sequence
// number.
#[derive(Clone, Copy)]
pub struct IndexRecord {
    pub granule: u64,
    pub place: u64,
    pub sequence: u32,
}

// A search among the places from `low` to before `high`. One that halves looks for the last granule position at or before
// `number`, and counts its probes; else it goes from place to place to the first fall, and `number` is the granule position
// before `low`.
#[derive(Clone, Copy)]
pub struct Search {
    pub low: usize,
    pub high: usize,
    pub number: u64,
    pub probes: u64,
    pub halves: bool,
}

// What seeking answers. Stays one enum: the refusal tells a place too, and the other two are answers of one kind.
#[derive(Clone, Copy)]
pub enum Sought {
    // the place of the record in the index, and the number of probes
    Record(usize, u64),
    // no record is early enough; the number of probes
    Begin(u64),
    // 26, and the first place whose granule position is below the one before it
    Refused(Refusal, usize),
}

// The pre-roll, 80 ms in samples at 48 kHz: how far before the target a reader is opened (RFC 7845, 4.6).
const PRE_ROLL: u64 = 3840;

// The place that a search looks at next (RULES.md, 15): the first of those that remain, or, if it halves, the one with half of
// them, rounded down, before it. It refuses nothing; of a search that has ended it is `low`.
// Example: by halving from 0 to before 8 it is 4, and from 0 to before 7 it is 3.
pub fn place(s: Search) -> usize
    ensures { result ≡ place_of s }
{
    let rest = s.high.saturating_sub(s.low);
    if s.halves { s.low + rest / 2 } else { s.low }
}

// From place to place: the search ends at a fall, or goes on after the place.
fn scan(s: Search, g: u64) -> Search
    requires { s.low < s.high }
    ensures { result ≡ scanned s g }
{
    if g < s.number {
        Search {
            low: s.low,
            high: s.low,
            number: s.number,
            probes: s.probes,
            halves: false,
        }
    } else {
        Search {
            low: s.low + 1,
            high: s.high,
            number: g,
            probes: s.probes,
            halves: false,
        }
    }
}

// A probe: the search goes on before a place past the limit, and after any other.
fn halve(s: Search, g: u64) -> Search
    requires { s.low < s.high }
    ensures { result ≡ halved s g }
{
    let at = place(s);
    let probes = s.probes.saturating_add(1);
    if s.number < g {
        Search {
            low: s.low,
            high: at,
            number: s.number,
            probes,
            halves: true,
        }
    } else {
        Search {
            low: at + 1,
            high: s.high,
            number: s.number,
            probes,
            halves: true,
        }
    }
}

// The search once it was told the granule position g of the place that it looks at (RULES.md, 15). It refuses nothing; a search
// that has ended stays as it is.
// Example: by halving from 0 to before 8 up to 100, place 4 is looked at; 100 there leaves 5 to before 8, and 101 leaves 0 to
// before 4.
pub fn step(s: Search, g: u64) -> Search
    ensures { result ≡ step_of s g }
{
    if s.low < s.high {
        if s.halves { halve(s, g) } else { scan(s, g) }
    } else {
        s
    }
}

// The search for the first fall among n records, before its first step (RULES.md, 15). It refuses nothing.
// Example: `scanning(5)` looks at place 0 first, and at place 4 last.
pub fn scanning(n: usize) -> Search
    ensures { result ≡ scanning_of n }
{
    Search {
        low: 0,
        high: n,
        number: 0,
        probes: 0,
        halves: false,
    }
}

// What the search for the first fall among n records found, when it has ended (RULES.md, 15). It refuses nothing.
// Example: of the granule positions 3, 3, 2 and 1 it is `Some(2)`, and of 1, 2 and 2 it is `None`.
pub fn fall_of(s: Search, n: usize) -> Option<usize>
    ensures { given result ≡ fall_of s n }
{
    if s.low < n { Some(s.low) } else { None }
}

// By halving among the first n records, up to the limit.
fn halving_among(n: usize, limit: u64) -> Search
    ensures { result ≡ halving_by n limit }
{
    Search {
        low: 0,
        high: n,
        number: limit,
        probes: 0,
        halves: true,
    }
}

// The search for the last of n records at or before the target less the pre-roll, before its first probe (RULES.md, 15;
// RFC 7845, 4.6). It refuses nothing; where there is a fall, or the target is below the pre-roll, it has no place to look at.
// Example: `halving(None, 5, 10840)` looks for the last granule position at or before 7,000 among 5.
pub fn halving(f: Option<usize>, n: usize, target: u64) -> Search
    ensures { result ≡ halving_of (given f) n target }
{
    match f {
        Some(_) => halving_among(0, 0),
        None => {
            if target < PRE_ROLL {
                return halving_among(0, 0);
            }
            halving_among(n, target - PRE_ROLL)
        }
    }
}

// What seeking answers, by the first fall and the search by halving when it has ended (RULES.md, 15). Refuses with 26 where
// there is a fall, whatever the target.
// Example: of the granule positions 5,000, 6,000, 7,000, 7,000 and 8,000, and the target 10,840, it is `Record(3, 3)`.
pub fn answer(f: Option<usize>, s: Search) -> Sought
    ensures { told_sought result ≡ answer_of (given f) s }
{
    match f {
        Some(i) => Sought::Refused(Refusal::FallingGranule, i),
        None => {
            if 0 < s.low {
                Sought::Record(s.low - 1, s.probes)
            } else {
                Sought::Begin(s.probes)
            }
        }
    }
}
