// UTF-8 (RFC 3629).
#![tactic(auto)]

ghost use Rattle.std.specs.Prelude.{◌≡◌, ◌≤◌, ◌<◌, length, drop};
ghost use Rattle.utf8.specs.Characters.{LengthTold, LengthTaken, lead_bits, tails_follow, number_with, least_of};
ghost use Rattle.utf8.specs.Characters.{right_number, length_at, no_character, character_at, utf8};

// A right character: how many bytes it has, and its number. Where there is none, both are 0.
// stays: `find_character` gives this type, and its clause `character_at` names both fields where there is none.
#[derive(Clone, Copy)]
pub struct Character {
    pub size: usize,
    pub number: u32,
}

// How many bytes the character has that begins with this byte; 0 where none begins so.
#[tactic(auto, unfolding(crate::specs::Characters::character_length))]
fn character_length(lead: u8) -> usize
    ensures { LengthTold lead result }
{
    match lead.leading_ones() {
        0 => 1,
        2 => 2,
        3 => 3,
        4 => 4,
        _ => 0,
    }
}

// The bits of the character's number in its lead byte, which says that the character has n bytes.
fn lead_bits(lead: u8, n: usize) -> u8
    requires { LengthTaken lead n }
    ensures { result ≡ lead_bits lead }
{
    match n {
        2 => lead % 32,
        3 => lead % 16,
        4 => lead % 8,
        _ => lead,
    }
}

// Whether n bytes from `at` on begin with a one and a zero.
fn tails_follow(s: &[u8], at: usize, n: usize) -> bool
    ensures { result ≡ tails_follow n (drop at s.now) }
{
    let tails = octets::part_of(s, at, n);
    for tail in tails {
        if *tail < 0x80 || *tail > 0xBF {
            return false;
        }
    }
    tails.len() == n
}

// The character's number: the bits of its lead byte, and six from each of the n bytes from `at` on.
fn number_with(lead: u8, n: usize, s: &[u8], at: usize) -> u32
    requires { n ≤ 3 }
    ensures { result ≡ number_with lead n (drop at s.now) }
{
    let mut x = u32::from(lead);
    for tail in octets::part_of(s, at, n) {
        x = x * 64 + u32::from(*tail % 64);
    }
    x
}

// The least number that needs n bytes.
fn least_of(n: usize) -> u32
    ensures { result ≡ least_of n }
{
    match n {
        2 => 0x80,
        3 => 0x800,
        4 => 0x10000,
        _ => 0,
    }
}

// Whether n bytes are the shortest form of the number, and it is that of a character.
#[tactic(auto, unfolding(crate::specs::Characters::right_number))]
fn right_number(n: usize, x: u32) -> bool
    ensures { result ≡ right_number n x }
{
    let least = least_of(n);
    least <= x && x <= 0x10FFFF && (x < 0xD800 || x > 0xDFFF)
}

// The length of the right character that is here, 0 where there is none.
fn character_at(s: &[u8], at: usize) -> usize
    requires { at < length s.now }
    ensures { result ≡ length_at s.now at }
{
    let lead = s[at];
    if lead < 0x80 {
        return 1;
    }
    let n = character_length(lead);
    if n == 0 {
        return 0;
    }
    if !tails_follow(s, at + 1, n - 1) {
        return 0;
    }
    let x = number_with(lead_bits(lead, n), n - 1, s, at + 1);
    if !right_number(n, x) {
        return 0;
    }
    n
}

fn no_character() -> Character
    ensures { result ≡ no_character }
{
    Character { size: 0, number: 0 }
}

// The right character that begins at this place (RULES.md, 5; RFC 3629, 3). Where none does, and past the end, its size and
// its number are 0.
// Example: `find_character(b"\xC3\xA9", 0)` has the size 2 and the number 0xE9, and at place 1 both are 0.
pub fn find_character(s: &[u8], at: usize) -> Character
    ensures { result ≡ character_at s.now at }
{
    if at >= s.len() {
        return no_character();
    }
    let size = character_at(s, at);
    if size == 0 {
        return no_character();
    }
    let bits = lead_bits(s[at], size);
    Character {
        size,
        number: number_with(bits, size - 1, s, at + 1),
    }
}

// Whether the bytes are UTF-8 (RULES.md, 5; RFC 3629, 3): shortest forms, no surrogates, no character above 10FFFF, none cut
// short. Example: `is_utf8(b"\xC3\xA9")` is true, and `is_utf8(b"\xC3")` is false.
pub fn is_utf8(s: &[u8]) -> bool
    ensures { result ≡ utf8 s.now }
{
    // stays: a turn goes on by a character, and `find_character` needs `character_at`, which the library has not
    let mut i = 0;
    while i < s.len() {
        let n = character_at(s, i);
        if n == 0 {
            return false;
        }
        i += n;
    }
    true
}
