// Whether a comment header has a REPLAYGAIN tag (RFC 7845, 5.2.1; RULES.md, 18).
#![tactic(auto)]

ghost use Rattle.std.specs.Prelude.{◌≡◌, true};
ghost use Rattle.tags_layout.specs.Layout.{all_fit, texts_from};
ghost use Rattle.tags_replaygain.specs.ReplayGain.{is_replay_gain, any_replay_gain, has_replay_gain};

// Whether the comment has one of the four names of REPLAYGAIN tags, without regard to ASCII case, and a "=" after it (RULES.md,
// 18). It refuses nothing. Example: "replaygain_track_gain=-3 dB" has, and "REPLAYGAIN_TRACK_GAIN", without a "=", has not.
pub fn is_replaygain(c: &[u8]) -> bool
    ensures { result ≡ is_replay_gain c.now }
{
    if tags_comment::is_named(b"REPLAYGAIN_TRACK_GAIN", c) {
        return true;
    }
    if tags_comment::is_named(b"REPLAYGAIN_TRACK_PEAK", c) {
        return true;
    }
    if tags_comment::is_named(b"REPLAYGAIN_ALBUM_GAIN", c) {
        return true;
    }
    tags_comment::is_named(b"REPLAYGAIN_ALBUM_PEAK", c)
}

// Whether one of n comments is a REPLAYGAIN tag, the first one's length at this place.
fn any_from(b: &[u8], start: usize, n: usize) -> bool
    requires { all_fit b.now n start ≡ true }
    ensures { result ≡ any_replay_gain (texts_from b.now n start) }
{
    let mut at = start;
    for _i in 0..n {
        let size = number_reader::number32(b, at) as usize;
        let text = at + 4;
        if is_replaygain(octets::part_of(b, text, size)) {
            return true;
        }
        at = text + size;
    }
    false
}

// Whether the packet is a right comment header and has a REPLAYGAIN tag (RULES.md, 18). It refuses nothing.
// Example: of a packet without comments it is false.
pub fn has_replaygain(b: &[u8]) -> bool
    ensures { result ≡ has_replay_gain b.now }
{
    let Ok(n) = tags_reader::read_tags(b) else {
        return false;
    };
    any_from(b, tags_layout::first_comment(b), n)
}
