// Lists in lent memory, of numbers or of records.
#![tactic(auto)]

ghost use Rattle.std.specs.Prelude.{◌≡◌, set};

// Stores x at place i of a list, and nothing where the list has no such place (RULES.md, 15 and 16). It refuses nothing.
// Example: in a list of two numbers, place 1 is set, and for place 2 nothing is stored.
pub fn store_at<T: Copy>(list: &mut [T], i: usize, x: T)
    ensures { list.new ≡ set list.old i x }
{
    if i < list.len() {
        list[i] = x;
    }
}
