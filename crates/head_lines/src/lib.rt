// The lines that show an identification header. Each public function puts one whole line, but for `put_entry`, which puts a
// part of one, into a lent buffer from place `at` on, and answers the place after it. Where that does not fit, it puts nothing
// and answers `at`.
#![tactic(auto)]

ghost use Rattle.std.specs.Prelude.{◌++◌, ◌+◌, ◌≤◌, length};
ghost use Rattle.text_put.specs.Marks.{space};
ghost use Rattle.text_put.specs.Writing.{Put, Laid};
ghost use Rattle.text_decimal.specs.Decimal.{decimal};
ghost use Rattle.head_fields.specs.Right.{used_places};
ghost use Rattle.head_lines.specs.Lines.{number_line, gain_end, gain_end_most, gain_line};
ghost use Rattle.head_lines.specs.Lines.{spaced, MappingRoom, MappingLaid, mapping_line, entry_text};

use head_fields::Head;

// The most bytes that end the line of a number.
const NUMBER_END_MAX: usize = 21;

// The most bytes that end the line of a gain.
const GAIN_END_MAX: usize = 56;

// The most bytes that end the line of a mapping.
const MAPPING_END_MAX: usize = 1021;

// The most bytes of a signed number.
const SIGNED_MAX: usize = 6;

// The line of a number: its name, the number in decimal and a line feed (RULES.md, 13). Where it does not fit, nothing is put.
// Example: `put_number(out, 0, b"rate ", 48000)` puts "rate 48000" and a line feed, and answers 11.
pub fn put_number(out: &mut [u8], at: usize, name: &[u8], x: u64) -> usize
    ensures { Put out.old at (number_line name.now x) result out.new }
{
    let mut end = [0u8; NUMBER_END_MAX];
    let n = text_decimal::put_ended(&mut end, 0, x, b'\n');
    text_put::put_both(out, at, name, octets::part_of(&end, 0, n))
}

// What ends the line of a gain.
fn lay_gain(out: &mut [u8], g: i16) -> usize
    requires { gain_end_most ≤ length out.old }
    ensures { Laid out.old 0 (gain_end g) result out.new }
{
    let next = text_gain::put_signed(out, 0, g);
    text_gain::put_decibels(out, next, g)
}

// The line of a gain: the number, and the same in decibels (RULES.md, 13). Where it does not fit, nothing is put.
// Example: for -573 it is "gain -573", a tab, "-2.23828125 dB" and a line feed.
pub fn put_gain(out: &mut [u8], at: usize, g: i16) -> usize
    ensures { Put out.old at (gain_line g) result out.new }
{
    let mut end = [0u8; GAIN_END_MAX];
    let n = lay_gain(&mut end, g);
    text_put::put_both(out, at, b"gain ", octets::part_of(&end, 0, n))
}

// A number after a space.
fn lay_index(out: &mut [u8], at: usize, i: u8) -> usize
    requires { at + length (space ++ decimal i) ≤ length out.old }
    ensures { Laid out.old at (space ++ decimal i) result out.new }
{
    let next = text_put::put_bytes(out, at, b" ");
    text_decimal::put_decimal(out, next, i as u64)
}

// Numbers, each after a space.
fn lay_spaced(out: &mut [u8], s: &[u8]) -> usize
    requires { length (spaced s.now) ≤ length out.old }
    ensures { Laid out.old 0 (spaced s.now) result out.new }
{
    let mut place = 0;
    // stays: the edit `every_other_index` steps this counter by 2
    let mut i = 0;
    while i < s.len() {
        place = lay_index(out, place, s[i]);
        i += 1;
    }
    place
}

// What ends the line of a mapping.
fn lay_mapping(out: &mut [u8], s: &[u8]) -> usize
    requires { MappingRoom out.old s.now }
    ensures { MappingLaid out.old s.now result out.new }
{
    let last = lay_spaced(out, s);
    text_put::put_bytes(out, last, b"\n")
}

// The line of the channel mapping: the places that are used, each after a space (RULES.md, 13). Where it does not fit, nothing
// is put. Example: for 2 channels with the indices 0 and 1 it is "mapping 0 1" and a line feed.
pub fn put_mapping(out: &mut [u8], at: usize, head: Head) -> usize
    ensures { Put out.old at (mapping_line (used_places head)) result out.new }
{
    let mut end = [0u8; MAPPING_END_MAX];
    let mapping = head.mapping;
    let used = head_families::index_count(head.family, head.channels);
    let n = lay_mapping(&mut end, octets::part_of(&mapping, 0, used));
    text_put::put_both(out, at, b"mapping", octets::part_of(&end, 0, n))
}

// An entry of the matrix: a space and the entry as a signed number (RULES.md, 13). Where they do not fit, nothing is put.
// Example: `put_entry(out, 0, -1)` puts " -1", and answers 3.
pub fn put_entry(out: &mut [u8], at: usize, x: i16) -> usize
    ensures { Put out.old at (entry_text x) result out.new }
{
    let mut number = [0u8; SIGNED_MAX];
    let n = text_gain::put_signed(&mut number, 0, x);
    text_put::put_both(out, at, b" ", octets::part_of(&number, 0, n))
}
