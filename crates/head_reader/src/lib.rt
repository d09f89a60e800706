// Reading the identification header of an Ogg Opus stream (RFC 7845, 5.1; RFC 8486, 3).
#![tactic(auto)]

ghost use Rattle.std.specs.Prelude.{◌≡◌};
ghost use Rattle.head_reader.specs.Fields.{streams_of, coupled_of, indices_of, places, head_of};
ghost use Rattle.head_reader.specs.Reading.{length_of, is_head, WasRefused, HeadIs};

use head_fields::{Head, SIGNATURE, START_LENGTH, place};
use limits::PACKET_MAX;
use refusal::Refusal;

// What a reading gives: whether the header is refused, and its fields, which are all zeros under a refusal.
// stays: the clause `HeadIs` and the edit `fields_under_a_refusal` speak of the record under a refusal, so it is not in the `Ok`.
#[derive(Clone, Copy)]
pub struct HeadRead {
    pub verdict: Result<(), Refusal>,
    pub head: Head,
}

// The mapping's 255 places: the indices of the table, or those of family 0, and zeros. Family 3 has no indices.
fn mapping_of(b: &[u8]) -> [u8; 255]
    ensures { result ≡ places (indices_of b.now) }
{
    let mut mapping = [0u8; 255];
    let family = octets::byte_at(b, place::FAMILY);
    let channels = octets::byte_at(b, place::CHANNELS);
    let used = head_families::index_count(family, channels);
    if head_families::has_counts(family) {
        octets::copy_at(&mut mapping, 0, octets::part_of(b, place::INDICES, used));
        return mapping;
    }
    if used > 1 {
        mapping[1] = 1;
    }
    mapping
}

fn streams_of(b: &[u8]) -> u8
    ensures { result ≡ streams_of b.now }
{
    if head_families::has_counts(octets::byte_at(b, place::FAMILY)) {
        return octets::byte_at(b, place::STREAMS);
    }
    1
}

fn coupled_of(b: &[u8]) -> u8
    ensures { result ≡ coupled_of b.now }
{
    if head_families::has_counts(octets::byte_at(b, place::FAMILY)) {
        return octets::byte_at(b, place::COUPLED);
    }
    let channels = octets::byte_at(b, place::CHANNELS);
    if channels == 0 {
        return 0;
    }
    channels - 1
}

fn head_of(b: &[u8]) -> Head
    ensures { result ≡ head_of b.now }
{
    let gain = number_signed::signed16(number_reader::number16(b, place::GAIN));
    let mapping = mapping_of(b);
    Head {
        version: octets::byte_at(b, place::VERSION),
        channels: octets::byte_at(b, place::CHANNELS),
        preskip: number_reader::number16(b, place::PRESKIP),
        rate: number_reader::number32(b, place::RATE),
        gain,
        family: octets::byte_at(b, place::FAMILY),
        streams: streams_of(b),
        coupled: coupled_of(b),
        mapping,
    }
}

// How many bytes the fields take, by the bytes as they are.
fn length_of(b: &[u8]) -> usize
    ensures { result ≡ length_of b.now }
{
    let family = octets::byte_at(b, place::FAMILY);
    let streams = octets::byte_at(b, place::STREAMS);
    let coupled = octets::byte_at(b, place::COUPLED);
    let channels = octets::byte_at(b, place::CHANNELS);
    head_fields::head_length(family, streams, coupled, channels)
}

// Signature, version and length are right.
fn is_head(b: &[u8]) -> bool
    ensures { result ≡ is_head b.now }
{
    if !octets::begins_with(b, &SIGNATURE) {
        return false;
    }
    let version = octets::byte_at(b, place::VERSION);
    if !head_fields::readable_version(version) {
        return false;
    }
    if b.len() < START_LENGTH {
        return false;
    }
    let fields = length_of(b);
    let long = fields > PACKET_MAX;
    if long {
        return false;
    }
    head_fields::right_length(version, fields, b.len())
}

fn refused(why: Refusal) -> HeadRead
    ensures { WasRefused why result }
{
    let mapping = [0u8; 255];
    let head = Head {
        version: 0,
        channels: 0,
        preskip: 0,
        rate: 0,
        gain: 0,
        family: 0,
        streams: 0,
        coupled: 0,
        mapping,
    };
    HeadRead {
        verdict: Err(why),
        head,
    }
}

// The fields of an identification header (RULES.md, 4). 12: wrong signature, version or length. 13: not 12, and the channel
// mapping is wrong. Under a refusal the record is all zeros. From version 2 on bytes after the fields are ignored.
// Example: a right header of family 0 with two channels, of 19 bytes, gives the stream count 1, the coupled count 1 and the
// indices 0 and 1.
pub fn read_head(b: &[u8]) -> HeadRead
    ensures { HeadIs b.now result }
{
    if !is_head(b) {
        return refused(Refusal::BadHead);
    }
    let head = head_of(b);
    if !head_fields::right_mapping(head) {
        return refused(Refusal::BadMapping);
    }
    HeadRead {
        verdict: Ok(()),
        head,
    }
}
