// The refusals of the whole library, by name. RULES.md, 2, has the exact occasion of each.
#![tactic(auto)]

ghost use Rattle.std.specs.Prelude.{◌≡◌};
ghost use Rattle.refusal.specs.Numbers.{number_of};

#[derive(Clone, Copy)]
pub enum Refusal {
    // 1: the carry buffer or a list is too short
    ShortRoom,
    // 2: a page marked last was accepted before
    AfterEnd,
    // 3: the bytes are not exactly one whole page, or its version is not 0
    NotOnePage,
    // 4: the checksum differs
    WrongChecksum,
    // 5: the serial differs from that of the first page
    OtherSerial,
    // 6: the sequence number is not the one that is due
    OutOfSequence,
    // 7: an unknown flag is set, or the first mark or the last mark is wrong
    WrongFlags,
    // 8: the continued mark is set and no packet is unfinished, or the other way round
    WrongContinued,
    // 9: a packet would pass 61,440 bytes
    PacketTooLong,
    // 10: the first page is not one completed packet, or a page of the comment header is empty or holds anything else
    HeaderShape,
    // 11: the granule position is wrong for what completes on the page
    WrongGranule,
    // 12: the identification header's signature, version or length is wrong
    BadHead,
    // 13: the channel mapping of the identification header is wrong, or a number of streams is not from 1 to 255
    BadMapping,
    // 14: the comment header is wrong
    BadTags,
    // 15: an Opus packet is illegal
    IllegalPacket,
    // 16: the Opus packets of an audio packet differ in length
    MixedLengths,
    // 17: the granule position is too small for the packets that complete on the page
    GranuleTooSmall,
    // 18: the first page where a packet completes is marked last, and its granule position is below the pre-skip
    BelowPreSkip,
    // 19: the reader was opened part way, and its first page where a packet completes is marked last
    NoPosition,
    // 20: the comment header has no such comment, or the matrix no such entry
    NoSuchPart,
    // 21: the comment's value is no gain
    BadGain,
    // 22: the output is too short
    ShortOutput,
    // 23: what is to be written, or the header to open a reader with, is wrong
    UnfitFields,
    // 24: the stream ends before its comment header is complete
    HeadersIncomplete,
    // 26: a granule position of an index is below the one before it
    FallingGranule,
    // 29: a crop may not begin at the page
    NoCropStart,
    // 30: no packet has the length, or the exact count would pass 2^63 - 1
    ClockRange,
}

// The number of a refusal (RULES.md, 2). Example: `number(Refusal::WrongChecksum)` is 4.
pub fn number(r: Refusal) -> u8
    ensures { result ≡ number_of r }
{
    match r {
        Refusal::ShortRoom => 1,
        Refusal::AfterEnd => 2,
        Refusal::NotOnePage => 3,
        Refusal::WrongChecksum => 4,
        Refusal::OtherSerial => 5,
        Refusal::OutOfSequence => 6,
        Refusal::WrongFlags => 7,
        Refusal::WrongContinued => 8,
        Refusal::PacketTooLong => 9,
        Refusal::HeaderShape => 10,
        Refusal::WrongGranule => 11,
        Refusal::BadHead => 12,
        Refusal::BadMapping => 13,
        Refusal::BadTags => 14,
        Refusal::IllegalPacket => 15,
        Refusal::MixedLengths => 16,
        Refusal::GranuleTooSmall => 17,
        Refusal::BelowPreSkip => 18,
        Refusal::NoPosition => 19,
        Refusal::NoSuchPart => 20,
        Refusal::BadGain => 21,
        Refusal::ShortOutput => 22,
        Refusal::UnfitFields => 23,
        Refusal::HeadersIncomplete => 24,
        Refusal::FallingGranule => 26,
        Refusal::NoCropStart => 29,
        Refusal::ClockRange => 30,
    }
}
