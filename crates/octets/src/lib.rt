// Bytes in lent buffers: one byte, parts, and copies. Every function is total: what is read past the end of a buffer is
// zero, and what does not fit into one is not written.
#![tactic(auto)]

ghost use Rattle.std.specs.Prelude.{◌≡◌, ◌+◌, min, ltb, get_or, take, drop};
ghost use Rattle.octets.specs.Octets.{Widened, begins, copied};

// The smaller of two numbers. Example: `least(3, 5)` is 3.
pub fn least(a: usize, b: usize) -> usize
    ensures { result ≡ min a b }
{
    a.min(b)
}

// The byte at a place, 0 past the end. Example: `byte_at(b"ab", 1)` is 98, and `byte_at(b"ab", 2)` is 0.
pub fn byte_at(s: &[u8], at: usize) -> u8
    ensures { result ≡ get_or s.now at 0 }
{
    s.get(at).copied().unwrap_or(0)
}

// Whether the bytes s begin with p.
// Example: `begins_with(b"OggS", b"Og")` is true, and `begins_with(b"Og", b"OggS")` is false.
pub fn begins_with(s: &[u8], p: &[u8]) -> bool
    ensures { result ≡ begins p.now s.now }
{
    s.starts_with(p)
}

// The n bytes from `at` on, or as many of them as are there.
// Example: `part_of(b"abcd", 1, 2)` is "bc", and `part_of(b"abcd", 3, 2)` is "d".
pub fn part_of(s: &[u8], at: usize, n: usize) -> &[u8]
    ensures { result.now ≡ take n (drop at s.now) }
{
    let rest = &s[at.min(s.len())..];
    &rest[..n.min(rest.len())]
}

// A byte as a count or an index. Example: `wide(255)` is 255.
pub fn wide(x: u8) -> usize
    ensures { Widened x result }
{
    usize::from(x)
}

// Whether n bytes from `at` on pass the end of a buffer of `len` bytes.
// Example: `is_short(10, 8, 2)` is false, and `is_short(10, 8, 3)` is true.
pub fn is_short(len: usize, at: usize, n: usize) -> bool
    ensures { result ≡ ltb len (at + n) }
{
    len < at || len - at < n
}

// Copies all of s into d from place `at` on, or nothing where it does not fit.
// Example: `copy_at(&mut d, 1, b"xy")` makes "axy" of a `d` that is "abc"; a `d` that is "ab" stays.
pub fn copy_at(d: &mut [u8], at: usize, s: &[u8])
    ensures { d.new ≡ copied d.old at s.now }
{
    if is_short(d.len(), at, s.len()) {
        return;
    }
    // not `copy_from_slice`, which is compiled to a call of `memmove`: the static library would need that from its caller
    for (j, b) in s.iter().enumerate() {
        d[at + j] = *b;
    }
}
