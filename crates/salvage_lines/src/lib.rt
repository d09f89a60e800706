// The lines that tell what salvage skipped and changed, as text (RULES.md, 16).
#![tactic(auto)]

ghost use Rattle.std.specs.Prelude.{◌++◌};
ghost use Rattle.text_put.specs.Writing.{Put};
ghost use Rattle.text_decimal.specs.Decimal.{decimal};
ghost use Rattle.text_put.specs.Marks.{space, line_feed};
ghost use Rattle.salvage_lines.specs.Lines.{change_line};

// A name with a space after it, a number, a space, another number and a line feed.
fn put_named(out: &mut [u8], at: usize, name: &[u8], x: u64, y: u64) -> usize
    ensures { Put out.old at (name.now ++ decimal x ++ space ++ decimal y ++ line_feed) result out.new }
{
    if octets::is_short(
        out.len(),
        at,
        name.len() + text_decimal::digits_of(x) + text_decimal::digits_of(y) + 2,
    ) {
        return at;
    }
    let next = text_put::put_bytes(out, at, name);
    let last = text_decimal::put_ended(out, next, x, b' ');
    text_decimal::put_ended(out, last, y, b'\n')
}

// One line, from place `at` of a lent buffer on, and the place after it: what it tells, by its number (0 skip, 1 number, 2 mark,
// any other cut), a place of the input and a number of bytes (RULES.md, 16). Where the line does not fit, nothing is put, and
// the answer is `at`.
// Example: `put_change(out, 0, 3, 5123, 255)` puts "cut 5123 255".
pub fn put_change(out: &mut [u8], at: usize, what: u64, place: u64, bytes: u64) -> usize
    ensures { Put out.old at (change_line what place bytes) result out.new }
{
    if what == 0 {
        return put_named(out, at, b"skip ", place, bytes);
    }
    if what == 1 {
        return put_named(out, at, b"number ", place, bytes);
    }
    if what == 2 {
        return put_named(out, at, b"mark ", place, bytes);
    }
    put_named(out, at, b"cut ", place, bytes)
}
