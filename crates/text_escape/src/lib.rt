// A text made fit to be shown: nothing in it can control a terminal, and the escapes can be undone.
#![tactic(auto)]

ghost use Rattle.std.specs.Prelude.{◌≡◌, ◌&&◌, ◌+◌, ◌-◌, ◌≤◌, ◌<◌, leb, length, get_or, drop};
ghost use Rattle.text_put.specs.Writing.{Put, Laid};
ghost use Rattle.text_escape.specs.Hidden.{is_hidden};
ghost use Rattle.text_escape.specs.Escape.{hex_digit, escape_of, image_of, is_shown, bytes_shown, escaped};

fn is_within(x: u32, first: u32, last: u32) -> bool
    ensures { result ≡ (leb first x && leb x last) }
{
    first <= x && x <= last
}

// Whether the character of this number is never shown as it is.
fn is_hidden(x: u32) -> bool
    ensures { result ≡ is_hidden x }
{
    is_within(x, 0, 0x1F)
        | is_within(x, 0x5C, 0x5C)
        | is_within(x, 0x7F, 0x9F)
        | is_within(x, 0xAD, 0xAD)
        | is_within(x, 0x61C, 0x61C)
        | is_within(x, 0x180E, 0x180E)
        | is_within(x, 0x200B, 0x200F)
        | is_within(x, 0x2028, 0x202E)
        | is_within(x, 0x2060, 0x206F)
        | is_within(x, 0xE000, 0xF8FF)
        | is_within(x, 0xFEFF, 0xFEFF)
        | is_within(x, 0xFFF9, 0xFFFB)
        | is_within(x, 0xFFFE, 0xFFFF)
        | is_within(x, 0xE0000, 0xE007F)
        | is_within(x, 0xF0000, 0x10FFFF)
}

// How many bytes from `at` on are shown as they are, where k of them belong to a character that began before.
fn bytes_shown(s: &[u8], at: usize, k: usize) -> usize
    requires { at < length s.now }
    ensures { result ≡ bytes_shown k (get_or s.now at 0) (drop (at + 1) s.now) }
{
    if k > 0 {
        return k;
    }
    let c = utf8::find_character(s, at);
    if is_hidden(c.number) {
        return 0;
    }
    c.size
}

fn hex_digit(d: u8) -> u8
    requires { d < 16 }
    ensures { result ≡ hex_digit d }
{
    if d < 10 { 0x30 + d } else { 0x37 + d }
}

// The escape of a byte.
fn put_escape(out: &mut [u8], at: usize, b: u8) -> usize
    requires { at + length (escape_of b) ≤ length out.old }
    ensures { Laid out.old at (escape_of b) result out.new }
{
    if b == b'\\' {
        octets::copy_at(out, at, b"\\\\");
        return at + 2;
    }
    let high = hex_digit(b / 16);
    let low = hex_digit(b % 16);
    out[at] = b'\\';
    out[at + 1] = b'x';
    out[at + 2] = high;
    out[at + 3] = low;
    at + 4
}

// A byte as it is where n bytes from it on are shown, or its escape where none is.
fn put_image(out: &mut [u8], at: usize, n: usize, b: u8) -> usize
    requires { at + length (image_of (is_shown n) b) ≤ length out.old }
    ensures { Laid out.old at (image_of (is_shown n) b) result out.new }
{
    if n == 0 {
        return put_escape(out, at, b);
    }
    out[at] = b;
    at + 1
}

// How many bytes `put_image` puts.
fn image_length(n: usize, b: u8) -> usize
    ensures { result ≡ length (image_of (is_shown n) b) }
{
    if n > 0 {
        return 1;
    }
    if b == b'\\' { 2 } else { 4 }
}

// Whether the text, escaped (RULES.md, 13), has at most `room` bytes.
// Example: `fits_within(b"a\n", 5)` is true, and `fits_within(b"a\n", 4)` is false: escaped it is `a\x0A`, of five bytes.
pub fn fits_within(s: &[u8], room: usize) -> bool
    ensures { result ≡ leb (length (escaped s.now)) room }
{
    let mut left = room;
    let mut k = 0;
    for (i, b) in s.iter().enumerate() {
        let n = bytes_shown(s, i, k);
        let size = image_length(n, *b);
        if left < size {
            return false;
        }
        left -= size;
        k = n.saturating_sub(1);
    }
    true
}

// The escaped text, where it fits.
fn lay_escaped(out: &mut [u8], at: usize, s: &[u8]) -> usize
    requires { at + length (escaped s.now) ≤ length out.old }
    ensures { Laid out.old at (escaped s.now) result out.new }
{
    let mut place = at;
    let mut k = 0;
    for (i, b) in s.iter().enumerate() {
        let n = bytes_shown(s, i, k);
        place = put_image(out, place, n, *b);
        k = n.saturating_sub(1);
    }
    place
}

// Puts a text, escaped (RULES.md, 13), into a lent buffer from place `at` on, or nothing where it does not fit. It answers
// the place after what it put: `at` itself where that is nothing.
// Example: `put_escaped(&mut out, 0, b"a\n")` puts the five bytes `a\x0A` and answers 5; into four it puts nothing.
pub fn put_escaped(out: &mut [u8], at: usize, s: &[u8]) -> usize
    ensures { Put out.old at (escaped s.now) result out.new }
{
    if out.len() < at {
        return at;
    }
    if !fits_within(s, out.len() - at) {
        return at;
    }
    lay_escaped(out, at, s)
}
