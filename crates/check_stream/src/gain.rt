// Whether the comment header of an accepted stream has a REPLAYGAIN tag (RULES.md, 18).
ghost use Rattle.std.specs.Prelude.{◌≡◌};
ghost use Rattle.text_put.specs.Writing.{Laid};
ghost use Rattle.tags_replaygain.specs.ReplayGain.{has_replay_gain};
ghost use Rattle.recording.specs.Pages.{pages_of};
ghost use Rattle.check_rules.specs.Findings.{comment_packet};
ghost use Rattle.check_stream.specs.Code.{CanGather, Headed};

use limits::PACKET_MAX;

// Puts the comment packet at the start of `packet`, and tells its length. The headers have so many pages.
fn gather(stream: &[u8], headers: usize, packet: &mut [u8]) -> usize
    requires { CanGather stream.now headers packet.old }
    ensures { Laid packet.old 0 (comment_packet (pages_of stream.now)) result packet.new }
{
    let mut page = 1;
    let mut at = recording_pages::page_at(stream, 0).len();
    let mut size = 0;
    while page < headers {
        let bytes = recording_pages::page_at(stream, at);
        let body = page_layout::body_of(bytes);
        octets::copy_at(packet, size, body);
        size += body.len();
        at += bytes.len();
        page += 1;
    }
    size
}

// Whether the comment packet has a REPLAYGAIN tag. The headers have so many pages.
pub(crate) fn has_gain(stream: &[u8], headers: usize) -> bool
    requires { Headed stream.now headers }
    ensures { result ≡ has_replay_gain (comment_packet (pages_of stream.now)) }
{
    let mut packet = [0u8; PACKET_MAX];
    let size = gather(stream, headers, &mut packet);
    tags_replaygain::has_replaygain(octets::part_of(&packet, 0, size))
}
