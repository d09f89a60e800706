// Bytes put whole into a lent buffer. The laws of this crate make a line of parts.
#![tactic(auto)]

ghost use Rattle.std.specs.Prelude.{◌++◌};
ghost use Rattle.text_put.specs.Writing.{Put};

// Puts all of s into a lent buffer from place `at` on, or nothing where it does not fit. It answers the place after what it
// put: `at` itself where that is nothing.
// Example: `put_bytes(&mut out, 1, b"xy")` makes "axyd" of an `out` that is "abcd", and answers 3. An `out` of two bytes
// stays, and the answer is 1.
pub fn put_bytes(out: &mut [u8], at: usize, s: &[u8]) -> usize
    ensures { Put out.old at s.now result out.new }
{
    if octets::is_short(out.len(), at, s.len()) {
        return at;
    }
    octets::copy_at(out, at, s);
    at + s.len()
}

// Puts two parts, one after the other, or nothing where they do not both fit, and answers as `put_bytes` does.
// Example: `put_both(&mut out, 0, b"a", b"bc")` makes "abcz" of an `out` that is "wxyz", and answers 3.
pub fn put_both(out: &mut [u8], at: usize, a: &[u8], b: &[u8]) -> usize
    ensures { Put out.old at (a.now ++ b.now) result out.new }
{
    if octets::is_short(out.len(), at, a.len() + b.len()) {
        return at;
    }
    let next = put_bytes(out, at, a);
    put_bytes(out, next, b)
}
