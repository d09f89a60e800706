// The comment header of an Ogg Opus stream (RFC 7845, 5.2): checking it, and where its vendor and each comment lie.
#![tactic(auto)]

ghost use Rattle.std.specs.Prelude.{◌≡◌, Some};
ghost use Rattle.refusal.specs.Told.{retold, told};
ghost use Rattle.tags_reader.specs.Right.{is_tags};
ghost use Rattle.tags_reader.specs.Reading.{read_tags, comment_count, find_vendor, find_comment};
ghost use Rattle.tags_reader.specs.Code.{stepped, walked, begun};

use refusal::Refusal;
use tags_layout::{Part, SIGNATURE, VENDOR_PLACE, VENDOR_START};

// How far a walk over the comments has come: the place of the next comment, and whether the gains of the track and of the
// album were seen.
#[derive(Clone, Copy)]
struct Walk {
    at: usize,
    track: bool,
    album: bool,
}

// One comment on.
fn step(b: &[u8], walk: Walk) -> Option<Walk>
    ensures { result ≡ stepped b.now (Some walk) }
{
    if !tags_layout::fits_at(b, walk.at) {
        return None;
    }
    let size = number_reader::number32(b, walk.at) as usize;
    let start = walk.at + 4;
    let next = start + size;
    let gains = tags_rules::judge(octets::part_of(b, start, size), walk.track, walk.album)?;
    Some(Walk {
        at: next,
        track: gains.track,
        album: gains.album,
    })
}

// n comments on.
fn walk_by(b: &[u8], from: Walk, n: usize) -> Option<Walk>
    ensures { result ≡ walked b.now n (Some from) }
{
    let mut walk = from;
    for _i in 0..n {
        walk = step(b, walk)?;
    }
    Some(walk)
}

// Up to the first comment.
fn begin(b: &[u8]) -> Option<Walk>
    ensures { result ≡ begun b.now }
{
    if !octets::begins_with(b, &SIGNATURE) {
        return None;
    }
    if !tags_layout::fits_at(b, VENDOR_PLACE) {
        return None;
    }
    let vendor = tags_layout::vendor_size(b) as usize;
    if !utf8::is_utf8(octets::part_of(b, VENDOR_START, vendor)) {
        return None;
    }
    let first = tags_layout::first_comment(b);
    let short = b.len() < first;
    if short {
        return None;
    }
    Some(Walk {
        at: first,
        track: false,
        album: false,
    })
}

// Whether the bytes are a comment header, in one pass.
fn is_tags(b: &[u8]) -> bool
    ensures { result ≡ is_tags b.now }
{
    let Some(start) = begin(b) else {
        return false;
    };
    let n = tags_layout::count_of(b);
    walk_by(b, start, n).is_some()
}

// The number of comments. 14: the packet is no comment header (RULES.md, 5).
// Example: a right packet with the vendor "v" and the comments "a=1" and "b=2" gives `Ok(2)`.
pub fn read_tags(b: &[u8]) -> Result<usize, Refusal>
    ensures { told result ≡ retold comment_count (read_tags b.now) }
{
    if !is_tags(b) {
        return Err(Refusal::BadTags);
    }
    Ok(tags_layout::count_of(b))
}

// Where the vendor lies. 14: the packet is no comment header (RULES.md, 5).
// Example: a right packet with the vendor "v" gives the start 12 and the size 1.
pub fn find_vendor(b: &[u8]) -> Result<Part, Refusal>
    ensures { told result ≡ find_vendor b.now }
{
    if !is_tags(b) {
        return Err(Refusal::BadTags);
    }
    tags_layout::find_text(b, VENDOR_PLACE)
}

// Where comment i lies, the first being 0. The comments before it and those after it are walked once each. 14: the packet is
// no comment header. 20: not 14, and it has no such comment.
// Example: with an empty vendor the first comment's length is at place 16, and the comment starts at place 20.
pub fn find_comment(b: &[u8], i: usize) -> Result<Part, Refusal>
    ensures { told result ≡ find_comment b.now i }
{
    let start = begin(b).ok_or(Refusal::BadTags)?;
    let n = tags_layout::count_of(b);
    let before = octets::least(i, n);
    let here = walk_by(b, start, before).ok_or(Refusal::BadTags)?;
    let end = walk_by(b, here, n - before);
    if end.is_none() {
        return Err(Refusal::BadTags);
    }
    let past = n <= i;
    if past {
        return Err(Refusal::NoSuchPart);
    }
    tags_layout::find_text(b, here.at)
}
