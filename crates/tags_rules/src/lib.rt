// The comments of a comment header together (RFC 7845, 5.2 and 5.2.1): each is right, and neither gain is there twice.
#![tactic(auto)]

ghost use Rattle.std.specs.Prelude.{◌≡◌};
ghost use Rattle.tags_comment.specs.Names.{is_named};
ghost use Rattle.tags_rules.specs.Right.{track_gain, album_gain};
ghost use Rattle.tags_rules.specs.Code.{judged, told_gains};

// What the comments up to one give: whether the gain of the track and that of the album were seen.
#[derive(Clone, Copy)]
pub struct Gains {
    pub track: bool,
    pub album: bool,
}

// Whether the comment is named as the gain of the track, R128_TRACK_GAIN, without regard to ASCII case (RULES.md, 5).
// Example: "r128_track_gain=0" is, and "R128_TRACK_GAIN" without "=" is not.
pub fn is_track_gain(c: &[u8]) -> bool
    ensures { result ≡ is_named track_gain c.now }
{
    tags_comment::is_named(b"R128_TRACK_GAIN", c)
}

// Whether the comment is named as the gain of the album, R128_ALBUM_GAIN, without regard to ASCII case (RULES.md, 5).
// Example: "R128_ALBUM_GAIN=loud" is, whatever its value, and "R128_TRACK_GAIN=0" is not.
pub fn is_album_gain(c: &[u8]) -> bool
    ensures { result ≡ is_named album_gain c.now }
{
    tags_comment::is_named(b"R128_ALBUM_GAIN", c)
}

// One comment more, where `track` and `album` say which gains the comments before it have (RULES.md, 5). It gives which gains
// the comments up to this one have, or `None` where the comment is wrong or has a gain that one before it has.
// Example: for "R128_TRACK_GAIN=0", `judge(c, false, false)` gives `Some` with track true and album false, and
// `judge(c, true, false)` is `None`.
pub fn judge(c: &[u8], track: bool, album: bool) -> Option<Gains>
    ensures { told_gains result ≡ judged c.now track album }
{
    if !tags_comment::right_comment(c) {
        return None;
    }
    let is_track = is_track_gain(c);
    let is_album = is_album_gain(c);
    if track & is_track {
        return None;
    }
    if album & is_album {
        return None;
    }
    Some(Gains {
        track: track | is_track,
        album: album | is_album,
    })
}
