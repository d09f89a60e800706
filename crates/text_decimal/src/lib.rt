// A number in decimal digits. Each public function that puts some puts all of them into a lent buffer, or nothing where they
// do not fit.
#![tactic(auto)]

ghost use Rattle.std.specs.Prelude.{◌≡◌, ◌++◌, ◌∷◌, [], ◌+◌, ◌≤◌, ◌<◌, ◌/◌, ◌%◌, ltb, length};
ghost use Rattle.octets.specs.Octets.{copied};
ghost use Rattle.octets.specs.Numbers.{octets};
ghost use Rattle.text_put.specs.Writing.{Put, Laid};
ghost use Rattle.text_decimal.specs.Decimal.{decimal};
ghost use Rattle.text_decimal.specs.Digits.{lowest};
ghost use Rattle.text_decimal.specs.Code.{Counted, HasThreeDigits, HasRoom};

// How many decimal digits a number has, from 1 to 20 (RULES.md, 11).
// Example: `digits_of(0)` is 1, and `digits_of(960)` is 3.
pub fn digits_of(x: u64) -> usize
    ensures { Counted x result }
{
    let mut rest = x;
    let mut n = 1;
    while rest >= 10 {
        rest /= 10;
        n += 1;
    }
    n
}

// The four digits of a number below 10,000, leading zeros too, as the bytes of one number. Two pairs of digits are in 16
// bits each, and both are divided by ten at once: n * 103 / 1024 is n / 10 for every n below 100.
fn four_digits(x: u64) -> u64
    requires { x < 10000 }
    ensures { octets 4 result ≡ lowest 4 x }
{
    let pairs = x / 100 + x % 100 * 65536;
    let scaled = pairs * 103 / 1024;
    let tens = scaled % 16 + scaled / 65536 % 16 * 65536;
    0x30303030 + tens + (pairs - 10 * tens) * 256
}

// The three digits of a number from 100 to 999 and a byte after them, as the bytes of one number.
fn three_digits(x: u64, b: u8) -> u64
    requires { HasThreeDigits x }
    ensures { octets 4 result ≡ decimal x ++ (b ∷ []) }
{
    let low = x % 100;
    let tens = low / 10;
    0x303030 + x / 100 + tens * 256 + (low - 10 * tens) * 65536 + u64::from(b) * 16777216
}

// The lowest four bytes of w; straight stores, which the compiler makes one.
fn put_word(out: &mut [u8], at: usize, w: u64)
    requires { at + 4 ≤ length out.old }
    ensures { out.new ≡ copied out.old at (octets 4 w) }
{
    out[at] = (w % 256) as u8;
    out[at + 1] = (w / 256 % 256) as u8;
    out[at + 2] = (w / 65536 % 256) as u8;
    out[at + 3] = (w / 16777216 % 256) as u8;
}

// The four digits of a number below 10,000, leading zeros too.
fn put_four(out: &mut [u8], at: usize, x: u64)
    requires { HasRoom x 10000 out.old at 4 }
    ensures { out.new ≡ copied out.old at (lowest 4 x) }
{
    put_word(out, at, four_digits(x));
}

// Puts the last four digits of a number, leading zeros too, from place `at` on, or nothing where they do not fit.
// Example: `put_last_four(&mut out, 0, 120960)` puts "0960" into an `out` of four bytes or more.
pub fn put_last_four(out: &mut [u8], at: usize, x: u64)
    ensures { out.new ≡ copied out.old at (lowest 4 x) }
{
    if octets::is_short(out.len(), at, 4) {
        return;
    }
    put_four(out, at, x % 10000);
}

// The eight digits of a number below 100,000,000, leading zeros too.
fn put_eight(out: &mut [u8], at: usize, x: u64)
    requires { HasRoom x 100000000 out.old at 8 }
    ensures { out.new ≡ copied out.old at (lowest 4 (x / 10000) ++ lowest 4 (x % 10000)) }
{
    put_four(out, at, x / 10000);
    put_four(out, at + 4, x % 10000);
}

// The digits of a number below 10,000.
fn put_short(out: &mut [u8], at: usize, x: u64) -> usize
    requires { HasRoom x 10000 out.old at (length (decimal x)) }
    ensures { Laid out.old at (decimal x) result out.new }
{
    if x < 10 {
        out[at] = (48 + x) as u8;
        return at + 1;
    }
    if x < 100 {
        out[at] = (48 + x / 10) as u8;
        out[at + 1] = (48 + x % 10) as u8;
        return at + 2;
    }
    if x < 1000 {
        out[at] = (48 + x / 100) as u8;
        out[at + 1] = (48 + x / 10 % 10) as u8;
        out[at + 2] = (48 + x % 10) as u8;
        return at + 3;
    }
    put_four(out, at, x);
    at + 4
}

// The digits of a number below 100,000,000.
fn put_middle(out: &mut [u8], at: usize, x: u64) -> usize
    requires { HasRoom x 100000000 out.old at (length (decimal x)) }
    ensures { Laid out.old at (decimal x) result out.new }
{
    if x < 10000 {
        return put_short(out, at, x);
    }
    let next = put_short(out, at, x / 10000);
    put_four(out, next, x % 10000);
    next + 4
}

// The digits of a number below 1,000,000,000,000: what comes before the last eight digits of any.
fn put_upper(out: &mut [u8], at: usize, x: u64) -> usize
    requires { HasRoom x 1000000000000 out.old at (length (decimal x)) }
    ensures { Laid out.old at (decimal x) result out.new }
{
    if x < 100000000 {
        return put_middle(out, at, x);
    }
    let next = put_short(out, at, x / 100000000);
    put_eight(out, next, x % 100000000);
    next + 8
}

// The digits of a number.
fn lay_decimal(out: &mut [u8], at: usize, x: u64) -> usize
    requires { at + length (decimal x) ≤ length out.old }
    ensures { Laid out.old at (decimal x) result out.new }
{
    if x < 100000000 {
        return put_middle(out, at, x);
    }
    let next = put_upper(out, at, x / 100000000);
    put_eight(out, next, x % 100000000);
    next + 8
}

// Whether the digits of a number and `more` bytes after them pass the end of a buffer. No number has more than 20 digits,
// so they are counted only where fewer bytes are left.
fn lacks_digits(len: usize, at: usize, x: u64, more: usize) -> bool
    requires { more ≤ 1 }
    ensures { result ≡ ltb len (at + (length (decimal x) + more)) }
{
    if !octets::is_short(len, at, 20 + more) {
        return false;
    }
    octets::is_short(len, at, digits_of(x) + more)
}

// Puts the digits of a number from place `at` on, with no leading zeros (RULES.md, 11), or nothing where they do not fit. It
// answers the place after what it put: `at` itself where that is nothing.
// Example: `put_decimal(&mut out, 0, 960)` puts "960" and answers 3; into two bytes it puts nothing and answers 0.
pub fn put_decimal(out: &mut [u8], at: usize, x: u64) -> usize
    ensures { Put out.old at (decimal x) result out.new }
{
    if lacks_digits(out.len(), at, x, 0) {
        return at;
    }
    lay_decimal(out, at, x)
}

// Puts the digits of a number and a byte after them, or nothing where they do not all fit, and answers as `put_decimal`
// does. Most lengths of packets have three digits: they are one store.
// Example: `put_ended(&mut out, 0, 960, b' ')` puts "960 " and answers 4; into three bytes it puts nothing and answers 0.
pub fn put_ended(out: &mut [u8], at: usize, x: u64, b: u8) -> usize
    ensures { Put out.old at (decimal x ++ (b ∷ [])) result out.new }
{
    if lacks_digits(out.len(), at, x, 1) {
        return at;
    }
    if x < 1000 {
        if x >= 100 {
            put_word(out, at, three_digits(x, b));
            return at + 4;
        }
    }
    let next = lay_decimal(out, at, x);
    out[next] = b;
    next + 1
}
