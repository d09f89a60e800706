// Signed numbers and gains as text, each put into a lent buffer whole, or nothing where it does not fit. Each public function
// answers the place after what it put.
#![tactic(auto)]

ghost use Rattle.std.specs.Prelude.{◌≡◌, ◌+◌, ◌≤◌, ◌<◌, length};
ghost use Rattle.text_put.specs.Writing.{Put, Laid};
ghost use Rattle.text_decimal.specs.Digits.{lowest};
ghost use Rattle.text_gain.specs.Numbers.{Sized, sign_of, signed_decimal, decibels, decibels_end};

// The number without its sign.
fn size_of(g: i16) -> u64
    ensures { Sized g result }
{
    let bits = number_signed::unsigned16(g) as u64;
    if bits < 32768 { bits } else { 65536 - bits }
}

fn lay_sign(out: &mut [u8], at: usize, g: i16) -> usize
    requires { at < length out.old }
    ensures { Laid out.old at (sign_of g) result out.new }
{
    if number_signed::unsigned16(g) < 32768 {
        return at;
    }
    out[at] = b'-';
    at + 1
}

fn lay_signed(out: &mut [u8], g: i16) -> usize
    requires { 21 ≤ length out.old }
    ensures { Laid out.old 0 (signed_decimal g) result out.new }
{
    let next = lay_sign(out, 0, g);
    text_decimal::put_decimal(out, next, size_of(g))
}

// The lowest eight digits of a number, leading zeros too.
fn lay_eight(out: &mut [u8], at: usize, x: u64) -> usize
    requires { at + 8 ≤ length out.old }
    ensures { Laid out.old at (lowest 8 x) result out.new }
{
    text_decimal::put_last_four(out, at, x / 10000);
    text_decimal::put_last_four(out, at + 4, x);
    at + 8
}

fn lay_decibels(out: &mut [u8], at: usize, g: i16) -> usize
    requires { at + 33 ≤ length out.old }
    ensures { Laid out.old at (decibels g) result out.new }
{
    let size = size_of(g);
    let whole = lay_sign(out, at, g);
    let point = text_decimal::put_decimal(out, whole, size / 256);
    let rest = text_put::put_bytes(out, point, b".");
    let unit = lay_eight(out, rest, size % 256 * 390625);
    text_put::put_bytes(out, unit, b" dB")
}

// A gain in decibels between a tab and a line feed.
fn lay_end(out: &mut [u8], g: i16) -> usize
    requires { 35 ≤ length out.old }
    ensures { Laid out.old 0 (decibels_end g) result out.new }
{
    let second = text_put::put_bytes(out, 0, b"\t");
    let last = lay_decibels(out, second, g);
    text_put::put_bytes(out, last, b"\n")
}

// Puts a signed number (RULES.md, 13): "-" where it is below zero, and its digits. Nothing is put where they do not all fit.
// It answers the place after what it put: `at` itself where that is nothing.
// Example: `put_signed(&mut out, 0, -573)` puts "-573" into an `out` of four bytes or more, and answers 4.
pub fn put_signed(out: &mut [u8], at: usize, g: i16) -> usize
    ensures { Put out.old at (signed_decimal g) result out.new }
{
    let mut text = [0u8; 21];
    let n = lay_signed(&mut text, g);
    text_put::put_bytes(out, at, octets::part_of(&text, 0, n))
}

// Puts what ends the line of a gain (RULES.md, 13): a tab, the gain in decibels, exact to the last of eight decimals, and a
// line feed. Nothing is put where they do not all fit. It answers as `put_signed` does.
// Example: `put_decibels(&mut out, 0, -573)` puts a tab, "-2.23828125 dB" and a line feed, and answers 16, if they fit.
pub fn put_decibels(out: &mut [u8], at: usize, g: i16) -> usize
    ensures { Put out.old at (decibels_end g) result out.new }
{
    let mut text = [0u8; 35];
    let n = lay_end(&mut text, g);
    text_put::put_bytes(out, at, octets::part_of(&text, 0, n))
}
