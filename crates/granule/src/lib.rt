// "Stamps and cuts" of an Ogg Opus stream (RFC 7845, 4) as arithmetic on one page.
#![tactic(auto)]

ghost use Rattle.refusal.specs.Told.{told};
ghost use Rattle.std.specs.Prelude.{◌≡◌};
ghost use Rattle.granule.specs.Samples.{kept_of};
ghost use Rattle.granule.specs.Judging.{granule_wrong, judge as judged};
ghost use Rattle.granule.specs.Code.{first_place};
ghost use Rattle.granule.specs.declared.Position.TheVariants.{Unset as NoneYet, Joined as PartWay, At as Known};

use refusal::Refusal;

// The last granule position of an audio page.
#[derive(Clone, Copy)]
pub enum Position {
    // none yet
    Unset,
    // none yet in a reader opened part way
    Joined,
    // this one, P in the rules
    At(u64),
}

// Where the packets of a page lie: the position before them, the hole in front of them, how many of their samples are
// trimmed, and the position that their stamps run from.
#[derive(Clone, Copy)]
pub struct Placed {
    pub before: u64,
    pub hole: u64,
    pub trimmed: u64,
    pub from: u64,
}

// The largest granule position of an audio page.
pub const GRANULE_MAX: u64 = 9223372036854775807;

// All ones: the page has no granule position.
const NO_GRANULE: u64 = 18446744073709551615;

// Whether 11 holds (RULES.md, 2): where a packet completes, the granule position `g` is above the most that it may be; where
// none does, the page has a granule position.
// Example: `wrong_granule(GRANULE_MAX, true, 960)` is false, and `wrong_granule(GRANULE_MAX, false, 960)` is true.
pub fn wrong_granule(most: u64, completes: bool, g: u64) -> bool
    ensures { result ≡ granule_wrong most completes g }
{
    if completes { g > most } else { g != NO_GRANULE }
}

// The first page with an audio packet that a reader sees, where it is not refused.
fn place_first(g: u64, d: u64) -> Placed
    ensures { result ≡ first_place g d }
{
    let at = g.saturating_sub(d);
    Placed {
        before: at,
        hole: 0,
        trimmed: d.saturating_sub(g),
        from: at,
    }
}

fn judge_unset(preskip: u16, g: u64, d: u32, last: bool) -> Result<Placed, Refusal>
    ensures { told result ≡ judged NoneYet preskip g d last }
{
    if last {
        if g < preskip as u64 {
            return Err(Refusal::BelowPreSkip);
        }
        return Ok(place_first(g, d as u64));
    }
    if g < d as u64 {
        return Err(Refusal::GranuleTooSmall);
    }
    Ok(place_first(g, d as u64))
}

fn judge_joined(preskip: u16, g: u64, d: u32, last: bool) -> Result<Placed, Refusal>
    ensures { told result ≡ judged PartWay preskip g d last }
{
    if last {
        return Err(Refusal::NoPosition);
    }
    if g < d as u64 {
        return Err(Refusal::GranuleTooSmall);
    }
    Ok(place_first(g, d as u64))
}

// `p` is at most `g`, and nothing is added to it, so that no value overflows.
fn judge_at(p: u64, preskip: u16, g: u64, d: u32, last: bool) -> Result<Placed, Refusal>
    ensures { told result ≡ judged (Known p) preskip g d last }
{
    if g < p {
        return Err(Refusal::GranuleTooSmall);
    }
    let reach = g - p;
    let size = d as u64;
    if reach < size {
        if last {
            return Ok(Placed {
                before: p,
                hole: 0,
                trimmed: size - reach,
                from: p,
            });
        }
        return Err(Refusal::GranuleTooSmall);
    }
    Ok(Placed {
        before: p,
        hole: reach - size,
        trimmed: 0,
        from: g - size,
    })
}

// Judges a page where an audio packet completes: its granule `g`, the samples `d` of its packets, and its last mark.
// 19: it is marked last, and the position is `Joined`. 18: it is marked last, the position is `Unset`, and `g` is below the
// pre-skip. 17: neither, and `g` is below P + `d`, P being 0 where there is none; on a page marked last, below P.
// Example: at `Position::At(960)` a page with `g` of 1920 and `d` of 960 has no hole, and its stamps run from 960.
pub fn judge(
    position: Position,
    preskip: u16,
    g: u64,
    d: u32,
    last: bool,
) -> Result<Placed, Refusal>
    ensures { told result ≡ judged position preskip g d last }
{
    match position {
        Position::Unset => judge_unset(preskip, g, d, last),
        Position::Joined => judge_joined(preskip, g, d, last),
        Position::At(p) => judge_at(p, preskip, g, d, last),
    }
}

// How many of a packet's samples are kept. The packet begins after position `at`, `skip` samples are still to skip, and the
// page has the granule `g`. It refuses nothing. Example: `kept(0, 960, 312, 960, false)` is 648.
pub fn kept(at: u64, samples: u32, skip: u16, g: u64, last: bool) -> u64
    ensures { result ≡ kept_of skip last g at samples }
{
    let all = samples as u64;
    let low = (skip as u64).min(all);
    if last {
        return g.saturating_sub(at).min(all).saturating_sub(low);
    }
    all.saturating_sub(low)
}
