// One comment of a comment header (RFC 7845, 5.2): its name, and the gain in its value.
#![tactic(auto)]

ghost use Rattle.refusal.specs.Told.{told};
ghost use Rattle.std.specs.Prelude.{◌≡◌, true};
ghost use Rattle.std.specs.Int.{w16};
ghost use Rattle.std.proofs.Common.{to_z};
ghost use Rattle.tags_comment.specs.Names.{equals_place, all_within, right_comment, upper, same_name, is_named};
ghost use Rattle.tags_comment.specs.Gain.{is_minus, digits_of, FewDigits, decimal, most_of};
ghost use Rattle.tags_comment.specs.Gain.{right_gain, gain_of, comment_gain};

use refusal::Refusal;

// The place of the first "=", or the comment's length.
fn equals_place(c: &[u8]) -> usize
    ensures { result ≡ equals_place c.now }
{
    for (i, b) in c.iter().enumerate() {
        if *b == 0x3d {
            return i;
        }
    }
    c.len()
}

// Whether each byte lies in low to high.
fn all_within(low: u8, high: u8, s: &[u8]) -> bool
    ensures { result ≡ all_within low high s.now }
{
    s.iter().all(|b| (low <= *b) & (*b <= high))
}

// Whether a packet may hold this comment (RULES.md, 5): it is UTF-8, and the bytes of its name, if it has one, lie in 0x20 to
// 0x7D. Example: "a~=1" may not be held, since "~" is 0x7E, and "a~", which has no name, may.
pub fn right_comment(c: &[u8]) -> bool
    ensures { result ≡ right_comment c.now }
{
    if !utf8::is_utf8(c) {
        return false;
    }
    let place = equals_place(c);
    if place >= c.len() {
        return true;
    }
    all_within(0x20, 0x7d, octets::part_of(c, 0, place))
}

// A letter as a capital.
#[tactic(auto, using(crate::proofs::Names::raised))]
fn upper(b: u8) -> u8
    ensures { result ≡ upper b }
{
    b.to_ascii_uppercase()
}

// Whether two names are equal without regard to ASCII case.
fn same_name(n: &[u8], m: &[u8]) -> bool
    ensures { result ≡ same_name n.now m.now }
{
    if n.len() != m.len() {
        return false;
    }
    n.iter().zip(m.iter()).all(|(a, b)| upper(*a) == upper(*b))
}

// Whether the comment has this name, without regard to ASCII case. Example: "title=a" has the name "TITLE".
pub fn is_named(name: &[u8], c: &[u8]) -> bool
    ensures { result ≡ is_named name.now c.now }
{
    let place = equals_place(c);
    if place >= c.len() {
        return false;
    }
    same_name(name, octets::part_of(c, 0, place))
}

fn is_minus(t: &[u8]) -> bool
    ensures { result ≡ is_minus t.now }
{
    octets::byte_at(t, 0) == 0x2d
}

// The digits after a sign, or all of the text where there is none.
fn digits_of(t: &[u8]) -> &[u8]
    ensures { result.now ≡ digits_of t.now }
{
    let first = octets::byte_at(t, 0);
    if first == 0x2b {
        return octets::part_of(t, 1, t.len());
    }
    if first == 0x2d {
        return octets::part_of(t, 1, t.len());
    }
    octets::part_of(t, 0, t.len())
}

// The number that at most six digits write.
fn decimal(d: &[u8]) -> u32
    requires { FewDigits d.now }
    ensures { result ≡ decimal 0 d.now }
{
    let mut x: u32 = 0;
    for b in d {
        let digit = *b - 0x30;
        x = x * 10 + digit as u32;
    }
    x
}

// The greatest number that may follow this sign.
fn most_of(t: &[u8]) -> u32
    ensures { result ≡ most_of t.now }
{
    if is_minus(t) { 32768 } else { 32767 }
}

// Whether the text is a gain: an optional sign and digits, at most 6 characters in all, from -32768 to 32767.
fn right_gain(t: &[u8]) -> bool
    ensures { result ≡ right_gain t.now }
{
    let long = t.len() > 6;
    if long {
        return false;
    }
    let d = digits_of(t);
    let none = d.len() < 1;
    if none {
        return false;
    }
    if !all_within(0x30, 0x39, d) {
        return false;
    }
    decimal(d) <= most_of(t)
}

// The 16 bits of the number that a right gain text writes.
fn gain_bits(t: &[u8]) -> u16
    requires { right_gain t.now ≡ true }
    ensures { to_z w16 result ≡ gain_of t.now }
{
    let size = decimal(digits_of(t));
    if is_minus(t) {
        return ((65536 - size) % 65536) as u16;
    }
    size as u16
}

// The gain that the comment's value is, whatever its name. 21: there is no "=", or what follows the first one is not an
// optional sign and digits, has no digit, has more than 6 characters, or is not from -32768 to 32767.
// Example: `comment_gain(b"R128_TRACK_GAIN=-573")` gives `Ok(-573)`.
pub fn comment_gain(c: &[u8]) -> Result<i16, Refusal>
    ensures { told result ≡ comment_gain c.now }
{
    let place = equals_place(c);
    if place >= c.len() {
        return Err(Refusal::BadGain);
    }
    let value = octets::part_of(c, place + 1, c.len());
    if !right_gain(value) {
        return Err(Refusal::BadGain);
    }
    Ok(number_signed::signed16(gain_bits(value)))
}
