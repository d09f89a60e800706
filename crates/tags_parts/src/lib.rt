// The parts of a comment header (RFC 7845, 5.2): its vendor, a comment, and the gain in one. Nothing is copied.
#![tactic(auto)]

ghost use Rattle.std.specs.Prelude.{◌≡◌};
ghost use Rattle.refusal.specs.Told.{number_in, told};
ghost use Rattle.tags_reader.specs.Reading.{find_vendor, find_comment, part_in, read_gain};

use refusal::Refusal;
use tags_layout::Part;

// The part that was found, or an empty one.
fn part_in(b: &[u8], found: Result<Part, Refusal>) -> &[u8]
    ensures { result.now ≡ part_in b.now (told found) }
{
    match found {
        Ok(p) => octets::part_of(b, p.start, p.size),
        Err(_) => octets::part_of(b, 0, 0),
    }
}

// The vendor, empty where `tags_reader::read_tags` refuses (RULES.md, 5).
// Example: of a right packet with the vendor "libopus" it is these 7 bytes of the packet, from place 12 on.
pub fn vendor(b: &[u8]) -> &[u8]
    ensures { result.now ≡ part_in b.now (find_vendor b.now) }
{
    part_in(b, tags_reader::find_vendor(b))
}

// Comment i, the first being 0; empty where `comment_number` is not 0 (RULES.md, 5).
// Example: of a right packet with the comments "a=1" and "b=2", `comment(b, 1)` is "b=2", and `comment(b, 2)` is empty.
pub fn comment(b: &[u8], i: usize) -> &[u8]
    ensures { result.now ≡ part_in b.now (find_comment b.now i) }
{
    part_in(b, tags_reader::find_comment(b, i))
}

// The number by which comment i is refused, 0 for none. 14: the packet is no comment header. 20: not 14, and it has no such
// comment (RULES.md, 2). Example: of a right packet with two comments, `comment_number(b, 1)` is 0, and
// `comment_number(b, 2)` is 20.
pub fn comment_number(b: &[u8], i: usize) -> u8
    ensures { result ≡ number_in (find_comment b.now i) }
{
    match tags_reader::find_comment(b, i) {
        Ok(_) => 0,
        Err(why) => refusal::number(why),
    }
}

// The gain in comment i, whatever its name. 14 and 20: as `comment_number` tells. 21: neither, and its value is no gain.
// Example: where comment 0 is "R128_TRACK_GAIN=-573", `gain(b, 0)` gives `Ok(-573)`.
pub fn gain(b: &[u8], i: usize) -> Result<i16, Refusal>
    ensures { told result ≡ read_gain b.now i }
{
    let p = tags_reader::find_comment(b, i)?;
    tags_comment::comment_gain(octets::part_of(b, p.start, p.size))
}
