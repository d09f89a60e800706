// One Opus packet (RFC 6716, 3 and Appendix B): how its frames lie in it, how many they are, and whether all are empty.
#![tactic(auto)]

ghost use Rattle.std.specs.Prelude.{true, false, length, drop};
ghost use Rattle.packet_frames.specs.Frames.{frame_max, coded, coded_times};
ghost use Rattle.packet_frames.specs.Packet.{parse};
ghost use Rattle.packet_frames.specs.Code.{FoundIs, LayoutIs, FramedIs, FramesAt, SomeFramesAt};
ghost use Rattle.packet_frames.specs.Code.{summed, padding_in, counted_in, plain_in, plain, placed_in, frames_in, outline};

// No frame is longer (RFC 6716, 3.4, R2).
pub const FRAME_MAX: usize = 1275;

// No packet has more samples, 120 ms (RFC 6716, 3.4, R5).
const SAMPLES_MAX: usize = 5760;

// A number read at a place, and the place after it.
#[derive(Clone, Copy)]
struct Found {
    value: usize,
    next: usize,
}

// How many frames a packet has, whether all of them are empty, and the place after the packet.
#[derive(Clone, Copy)]
pub struct Framed {
    pub count: usize,
    pub silent: bool,
    pub next: usize,
}

// How the frames of a packet lie in it: how many, whether each has a length of its own, the bytes of padding at the end, and
// the place of what follows.
#[derive(Clone, Copy)]
struct Layout {
    count: usize,
    vary: bool,
    padding: usize,
    at: usize,
}

// One coded length: a byte up to 251, or a larger one and four times the next.
fn coded_length(s: &[u8], at: usize) -> Option<Found>
    ensures { FoundIs s.now frame_max (coded (drop at s.now)) result }
{
    if s.len() <= at {
        return None;
    }
    let first = octets::wide(s[at]);
    if first < 252 {
        return Some(Found {
            value: first,
            next: at + 1,
        });
    }
    if s.len() - at < 2 {
        return None;
    }
    let second = octets::wide(s[at + 1]);
    Some(Found {
        value: first + 4 * second,
        next: at + 2,
    })
}

// n coded lengths one after the other: their sum.
fn coded_lengths(s: &[u8], at: usize, n: usize) -> Option<Found>
    requires { FramesAt s.now at n }
    ensures { FoundIs s.now 80325 (summed (coded_times n (drop at s.now))) result }
{
    let mut sum: usize = 0;
    let mut place = at;
    for _i in 0..n {
        let length = coded_length(s, place)?;
        sum += length.value;
        place = length.next;
    }
    Some(Found {
        value: sum,
        next: place,
    })
}

// The length of the padding. One that is longer than all of s counts as none: the packet is illegal either way.
fn padding_length(s: &[u8], at: usize) -> Option<Found>
    ensures { FoundIs s.now (length s.now) (padding_in s.now at) result }
{
    let mut bytes: usize = 0;
    for place in at..s.len() {
        let v = octets::wide(s[place]);
        if v < 255 {
            if s.len() < bytes + v {
                return None;
            }
            return Some(Found {
                value: bytes + v,
                next: place + 1,
            });
        }
        bytes += 254;
        if s.len() < bytes {
            return None;
        }
    }
    None
}

// The layout of a packet of code 3, by its count byte.
fn counted_layout(s: &[u8]) -> Option<Layout>
    ensures { LayoutIs s.now (counted_in s.now) result }
{
    if s.len() < 2 {
        return None;
    }
    let c = octets::wide(s[1]);
    let count = c % 64;
    let vary = c >= 128;
    let samples = packet_toc::frame_samples(s[0]);
    let empty = count == 0;
    if empty {
        return None;
    }
    let over = count * (samples as usize) > SAMPLES_MAX;
    if over {
        return None;
    }
    if c / 64 % 2 != 1 {
        return Some(Layout {
            count,
            vary,
            padding: 0,
            at: 2,
        });
    }
    let padding = padding_length(s, 2)?;
    Some(Layout {
        count,
        vary,
        padding: padding.value,
        at: padding.next,
    })
}

fn layout_of(s: &[u8]) -> Option<Layout>
    ensures { LayoutIs s.now (plain_in s.now) result }
{
    if s.len() == 0 {
        return None;
    }
    let code = s[0] % 4;
    match code {
        0 => Some(Layout {
            count: 1,
            vary: true,
            padding: 0,
            at: 1,
        }),
        1 => Some(Layout {
            count: 2,
            vary: false,
            padding: 0,
            at: 1,
        }),
        2 => Some(Layout {
            count: 2,
            vary: true,
            padding: 0,
            at: 1,
        }),
        _ => counted_layout(s),
    }
}

// Frames of `sum` bytes and the padding after them, from `at` on, if they fit.
fn placed_frames(s: &[u8], at: usize, count: usize, sum: usize, padding: usize) -> Option<Framed>
    requires { FramesAt s.now at count }
    ensures { FramedIs s.now (placed_in count sum padding (drop at s.now)) result }
{
    if octets::is_short(s.len() - at, padding, sum) {
        return None;
    }
    Some(Framed {
        count,
        silent: sum == 0,
        next: at + sum + padding,
    })
}

// Self-delimited: a coded length for each frame, or one for all.
fn delimited_frames(s: &[u8], at: usize, count: usize, vary: bool, padding: usize) -> Option<Framed>
    requires { FramesAt s.now at count }
    ensures { FramedIs s.now (frames_in true (plain count vary padding (drop at s.now))) result }
{
    if vary {
        let lengths = coded_lengths(s, at, count)?;
        return placed_frames(s, lengths.next, count, lengths.value, padding);
    }
    let length = coded_length(s, at)?;
    placed_frames(s, length.next, count, count * length.value, padding)
}

// The last frame has what the others and the padding leave of the packet.
fn varied_frames(s: &[u8], at: usize, count: usize, padding: usize) -> Option<Framed>
    requires { SomeFramesAt s.now at count }
    ensures { FramedIs s.now (frames_in false (plain count true padding (drop at s.now))) result }
{
    let others = coded_lengths(s, at, count - 1)?;
    let room = s.len() - others.next;
    if octets::is_short(room, padding, others.value) {
        return None;
    }
    let long = room - padding - others.value > FRAME_MAX;
    if long {
        return None;
    }
    Some(Framed {
        count,
        silent: room == padding,
        next: s.len(),
    })
}

// Equal frames share what the padding leaves of the packet.
fn equal_frames(s: &[u8], at: usize, count: usize, padding: usize) -> Option<Framed>
    requires { SomeFramesAt s.now at count }
    ensures { FramedIs s.now (frames_in false (plain count false padding (drop at s.now))) result }
{
    let room = s.len() - at;
    if room < padding {
        return None;
    }
    let bytes = room - padding;
    if bytes % count != 0 {
        return None;
    }
    if bytes / count > FRAME_MAX {
        return None;
    }
    Some(Framed {
        count,
        silent: bytes == 0,
        next: s.len(),
    })
}

// How many frames a packet has, whether all of them are empty, and the place after it; `None` if it breaks one of the rules
// R1 to R7 (RULES.md, 6; RFC 6716, 3.2, 3.4 and Appendix B). A frame is empty if it has no bytes; padding does not count.
// A self-delimited packet may end before the bytes do; any other takes all of them.
// Example: `packet_frames(&[0x01, 0xaa, 0xbb], false)` gives `Some` with the count 2, silent false and next 3: two frames of one
// byte each.
pub fn packet_frames(s: &[u8], delimited: bool) -> Option<Framed>
    ensures { FramedIs s.now (outline (parse delimited s.now)) result }
{
    let layout = layout_of(s)?;
    if delimited {
        return delimited_frames(s, layout.at, layout.count, layout.vary, layout.padding);
    }
    if layout.vary {
        return varied_frames(s, layout.at, layout.count, layout.padding);
    }
    equal_frames(s, layout.at, layout.count, layout.padding)
}
