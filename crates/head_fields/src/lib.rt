// The fields of an identification header (RFC 7845, 5.1; RFC 8486, 3), and when they are right.
#![tactic(auto)]

ghost use Rattle.std.specs.Prelude.{◌≡◌};
ghost use Rattle.head_fields.specs.Right.{right_streams, right_index, right_indices, all_zero};
ghost use Rattle.head_fields.specs.Right.{readable_version, writable_version, right_length};
ghost use Rattle.head_fields.specs.Right.{right_plain, right_mapping, right_fields, right_head, writable_head};
ghost use Rattle.head_fields.specs.Layout.{head_length};

use limits::PACKET_MAX;

pub mod place;

// What a header begins with.
pub const SIGNATURE: [u8; 8] = *b"OpusHead";

// How many bytes come before the table.
pub const START_LENGTH: usize = 19;

// The fields of a header. Of the mapping's 255 places one for each index is used, and the others are zero. Family 3 has no
// indices. Its matrix is not in the record.
#[derive(Clone, Copy)]
pub struct Head {
    pub version: u8,
    pub channels: u8,
    pub preskip: u16,
    pub rate: u32,
    pub gain: i16,
    pub family: u8,
    pub streams: u8,
    pub coupled: u8,
    pub mapping: [u8; 255],
}

// Whether a header of this version is read: its upper four bits are zero (RULES.md, 4; RFC 7845, 5.1).
// Example: `readable_version(15)` is true, and `readable_version(16)` is false.
pub fn readable_version(version: u8) -> bool
    ensures { result ≡ readable_version version }
{
    version < 16
}

// Whether a header of this version is written (RULES.md, 4): version 1 alone.
// Example: `writable_version(1)` is true, and `writable_version(2)` is false.
pub fn writable_version(version: u8) -> bool
    ensures { result ≡ writable_version version }
{
    version == 1
}

// Whether a header whose fields take so many bytes may have n bytes (RULES.md, 4): from version 2 on bytes may follow the fields.
// Example: `right_length(1, 19, 20)` is false, and `right_length(2, 19, 20)` is true.
pub fn right_length(version: u8, fields: usize, n: usize) -> bool
    ensures { result ≡ right_length version fields n }
{
    let extends = version >= 2;
    if extends {
        return n >= fields;
    }
    n == fields
}

fn right_streams(h: Head) -> bool
    ensures { result ≡ right_streams h }
{
    let streams = octets::wide(h.streams);
    let coupled = octets::wide(h.coupled);
    if streams < 1 {
        return false;
    }
    if coupled > streams {
        return false;
    }
    coupled + streams <= 255
}

// An index is below n, or 255 for silence.
fn right_index(n: usize, index: u8) -> bool
    ensures { result ≡ right_index n index }
{
    (octets::wide(index) < n) | (index == 255)
}

// Each index is right.
fn right_indices(n: usize, s: &[u8]) -> bool
    ensures { result ≡ right_indices n s.now }
{
    s.iter().all(|index| right_index(n, *index))
}

fn all_zero(s: &[u8]) -> bool
    ensures { result ≡ all_zero s.now }
{
    s.iter().all(|place| *place == 0)
}

// Whether the channel mapping is right (RULES.md, 4): the family allows so many channels, the numbers of streams are right,
// and each index is below their sum or is 255. Where it is not, reading refuses by 13.
// Example: family 1 with 3 channels, 2 streams, 1 coupled and the indices 0, 2, 1 is right. With 0, 3, 1 it is not.
pub fn right_mapping(h: Head) -> bool
    ensures { result ≡ right_mapping h }
{
    if !head_families::allowed_channels(h.family, h.channels) {
        return false;
    }
    if !right_streams(h) {
        return false;
    }
    let mapping = h.mapping;
    let used = head_families::index_count(h.family, h.channels);
    let n = octets::wide(h.coupled) + octets::wide(h.streams);
    right_indices(n, &mapping[..used])
}

// Family 0 has no counts: one stream, and two channels are coupled.
fn right_plain(h: Head) -> bool
    ensures { result ≡ right_plain h }
{
    if head_families::has_counts(h.family) {
        return true;
    }
    let channels = octets::wide(h.channels);
    let coupled = octets::wide(h.coupled);
    if h.streams != 1 {
        return false;
    }
    if channels == 0 {
        return coupled == 0;
    }
    if coupled != channels - 1 {
        return false;
    }
    let mapping = h.mapping;
    let plain = [0u8, 1u8];
    let n = octets::least(channels, 2);
    octets::begins_with(&mapping, &plain[..n])
}

// Whether all but the version is right: the channel mapping, the numbers of family 0, zeros past the indices, and a length that
// a packet may have.
fn right_fields(h: Head) -> bool
    ensures { result ≡ right_fields h }
{
    if !right_mapping(h) {
        return false;
    }
    if !right_plain(h) {
        return false;
    }
    let mapping = h.mapping;
    let used = head_families::index_count(h.family, h.channels);
    if !all_zero(&mapping[used..]) {
        return false;
    }
    head_length(h.family, h.streams, h.coupled, h.channels) <= PACKET_MAX
}

// Whether a reading could have given these fields (RULES.md, 4): the version is one that is read, the channel mapping is right,
// family 0 has its own numbers, each place past the indices is 0, and the fields take at most 61,440 bytes. Where they are not
// such, opening part way refuses by 23.
// Example: version 2, family 0, 2 channels, 1 stream, 1 coupled and the places 0, 1 and zeros are right. With 0 coupled they
// are not.
pub fn right_head(h: Head) -> bool
    ensures { result ≡ right_head h }
{
    if !readable_version(h.version) {
        return false;
    }
    right_fields(h)
}

// Whether the writer takes these fields (RULES.md, 4): `right_head` takes them, and the version is 1. Where it is not so, writing
// refuses by 23. Example: the fields in the example of `right_head` are taken with version 1, and not with version 2.
pub fn writable_head(h: Head) -> bool
    ensures { result ≡ writable_head h }
{
    if !writable_version(h.version) {
        return false;
    }
    right_fields(h)
}

// How long the fields of a header are in bytes (RULES.md, 4): after the family come two counts, and the indices or the matrix.
// Family 0 has none of these. It refuses nothing.
// Example: `head_length(0, 1, 1, 2)` is 19, `head_length(1, 4, 2, 6)` is 27, and `head_length(3, 2, 2, 4)` is 53.
pub fn head_length(family: u8, streams: u8, coupled: u8, channels: u8) -> usize
    ensures { result ≡ head_length family streams coupled channels }
{
    if !head_families::has_counts(family) {
        return START_LENGTH;
    }
    let indices = head_families::index_count(family, channels);
    place::INDICES + (indices + head_families::matrix_length(family, streams, coupled, channels))
}
