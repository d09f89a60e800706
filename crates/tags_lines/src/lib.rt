// The lines that show a comment header. Each public function puts one whole line into a lent buffer from place `at`
// on, and answers the place after it. Where the line does not fit, it puts nothing and answers `at`.
#![tactic(auto)]

ghost use Rattle.std.specs.Prelude.{◌≡◌, ◌≤◌, length};
ghost use Rattle.text_put.specs.Writing.{Put};
ghost use Rattle.tags_lines.specs.Lines.{text_line, is_gain, end_most, EndLaid, comment_line};

// The most bytes that end the line of a comment.
const END_MAX: usize = 35;

// The line of a text: its name, the text escaped, and `end` (RULES.md, 13). Where it does not fit, nothing is put.
// Example: the name "vendor ", the text `a\b` and a line feed put `vendor a\\b` and the line feed.
pub fn put_text(out: &mut [u8], at: usize, name: &[u8], text: &[u8], end: &[u8]) -> usize
    ensures { Put out.old at
        (text_line name.now text.now end.now) result out.new }
{
    if out.len() < at {
        return at;
    }
    let plain = name.len() + end.len();
    if out.len() - at < plain {
        return at;
    }
    if !text_escape::fits_within(text, out.len() - at - plain) {
        return at;
    }
    let second = text_put::put_bytes(out, at, name);
    let third = text_escape::put_escaped(out, second, text);
    text_put::put_bytes(out, third, end)
}

fn is_gain(c: &[u8]) -> bool
    ensures { result ≡ is_gain c.now }
{
    tags_rules::is_track_gain(c) | tags_rules::is_album_gain(c)
}

// What ends the line of a comment: after a gain that is right, its decibels.
fn lay_end(out: &mut [u8], c: &[u8]) -> usize
    requires { end_most ≤ length out.old }
    ensures { EndLaid out.old c.now result out.new }
{
    if !is_gain(c) {
        return text_put::put_bytes(out, 0, b"\n");
    }
    match tags_comment::comment_gain(c) {
        Ok(g) => text_gain::put_decibels(out, 0, g),
        Err(_) => text_put::put_bytes(out, 0, b"\n"),
    }
}

// The line of a comment: "comment ", the comment escaped, and after a right gain its decibels (RULES.md, 13). Where it does
// not fit, nothing is put.
// Example: for "R128_TRACK_GAIN=-573" it is "comment R128_TRACK_GAIN=-573", a tab, "-2.23828125 dB" and a line feed.
pub fn put_comment(out: &mut [u8], at: usize, c: &[u8]) -> usize
    ensures { Put out.old at (comment_line c.now) result out.new }
{
    let mut end = [0u8; END_MAX];
    let n = lay_end(&mut end, c);
    put_text(out, at, b"comment ", c, octets::part_of(&end, 0, n))
}
