// The library for programs in C, Rust and Python: numbers and slices only. include/embulgri.h declares these functions, and
// says when each refuses by which number. Each returns 0 and stores what it gives, or returns the number of its refusal and
// stores nothing (RULES.md, 14), but for: embulgri_checksum, embulgri_start, embulgri_agree, embulgri_totals_after,
// embulgri_page_end, embulgri_next_page, embulgri_index_count and those that put lines of a listing or an index, which refuse
// nothing; the carry buffer of embulgri_feed; the outputs of embulgri_feed_pages and embulgri_header_lines; the page of
// embulgri_judge and the place of embulgri_index_seek (RULES.md, 15).
#![tactic(auto)]

ghost use Rattle.refusal.specs.Told.{told};
ghost use Rattle.std.specs.Prelude.{◌≡◌};
ghost use Rattle.page_crc.specs.Crc.{crc};
ghost use Rattle.octets.specs.Pick.{pick};
ghost use Rattle.embulgri.specs.Answers.{PageIn, PageOut, packet_numbers, PacketIn, TagsIn, PartIn, VendorIn};
ghost use Rattle.embulgri.specs.Answers.{CommentIn, GainIn, TagsOut, ClockAfter};

use old_clock::Clock;
use packet_reader::Contents;
use page_layout::PageHeader;
use refusal::Refusal;
use tags_layout::Part;

pub mod checking;
pub mod cropping;
pub mod feeding;
pub mod heads;
pub mod index;
pub mod index_text;
pub mod lines;
pub mod parts;
pub mod saving;
pub mod streams;

// Returns the checksum of the bytes as they are (RULES.md, 3; embulgri.h). It stores nothing and refuses nothing.
// Example: of the one byte 0x01 it is 0x04c11db7.
pub fn embulgri_checksum(bytes: &[u8]) -> u32
    ensures { result ≡ crc 0 bytes.now }
{
    page_crc::checksum(bytes)
}

// Reads one page. Into `out`: flags, granule position, serial, sequence, number of lacing values, body length. Returns 3, 4
// or 0 (RULES.md, 3; embulgri.h).
// Example: a right page with flags 2, granule position 0, serial 7, sequence 0 and one lacing value of 19 stores 2, 0, 7, 0,
// 1, 19.
pub fn embulgri_page_read(page: &[u8], out: &mut [u64; 6]) -> u32
    ensures { PageIn page.now result out.old out.new }
{
    let read = page_reader::read_page(page);
    match read {
        Ok(h) => {
            let values = page_layout::lacing_of(page).len();
            let body = page_layout::body_of(page).len();
            *out = [
                h.flags as u64,
                h.granule,
                h.serial as u64,
                h.sequence as u64,
                values as u64,
                body as u64,
            ];
            0
        }
        Err(why) => refusal::number(why) as u32,
    }
}

// Writes one page to the start of `out`. Into `written`: how many bytes it has. Returns 23, 22 or 0 (RULES.md, 3; embulgri.h).
// Example: one lacing value of 1 and a body of 1 byte, with flags 4 and an `out` of 40 bytes, store 29 and return 0.
pub fn embulgri_page_write(
    flags: u64,
    granule: u64,
    serial: u32,
    sequence: u32,
    lacing: &[u8],
    body: &[u8],
    out: &mut [u8],
    written: &mut u64,
) -> u32
    ensures { PageOut (record { flags = flags; granule = granule; serial = serial; sequence = sequence })
        lacing.now body.now result
        out.old out.new written.old written.new }
{
    if flags > 7 {
        return refusal::number(Refusal::UnfitFields) as u32;
    }
    let h = PageHeader {
        flags: flags as u8,
        granule,
        serial,
        sequence,
    };
    let wrote = page_writer::write_page(h, lacing, body, out);
    match wrote {
        Ok(n) => {
            *written = n as u64;
            0
        }
        Err(why) => refusal::number(why) as u32,
    }
}

fn bit(b: bool) -> u64
    ensures { result ≡ pick b 1 0 }
{
    if b { 1 } else { 0 }
}

// What a packet is made of, as numbers.
fn packet_numbers(c: Contents) -> [u64; 4]
    ensures { result ≡ packet_numbers c }
{
    let m = c.measure;
    [
        m.samples as u64,
        m.frames as u64,
        bit(c.stereo),
        bit(c.silent),
    ]
}

// Reads one audio packet of so many streams. Into `out`: its length in samples at 48 kHz, and of its first Opus packet the
// number of frames, whether it is stereo, and whether every frame is empty. Returns 13, 15, 16 or 0 (RULES.md, 6; embulgri.h).
// Example: the one byte 0xfc and 1 stream store 960, 1, 1, 1.
pub fn embulgri_packet_read(packet: &[u8], streams: u64, out: &mut [u64; 4]) -> u32
    ensures { PacketIn packet.now streams result out.old out.new }
{
    let read = packet_reader::read_packet(packet, streams);
    match read {
        Ok(contents) => {
            *out = packet_numbers(contents);
            0
        }
        Err(why) => refusal::number(why) as u32,
    }
}

// Reads one comment header. Into `count`: the number of its comments. Returns 14 or 0 (RULES.md, 5; embulgri.h).
// Example: a packet with the vendor "v" and the comments "a=1" and "b=2" stores 2.
pub fn embulgri_tags_read(packet: &[u8], count: &mut u64) -> u32
    ensures { TagsIn packet.now result count.old count.new }
{
    let read = tags_reader::read_tags(packet);
    match read {
        Ok(n) => {
            *count = n as u64;
            0
        }
        Err(why) => refusal::number(why) as u32,
    }
}

// Into `part`: where it starts in the packet, and its length.
fn store_part(found: Result<Part, Refusal>, part: &mut [u64; 2]) -> u32
    ensures { PartIn (told found) result part.old part.new }
{
    match found {
        Ok(p) => {
            *part = [p.start as u64, p.size as u64];
            0
        }
        Err(why) => refusal::number(why) as u32,
    }
}

// Finds the vendor of a comment header. Into `part`: where it starts in the packet, and how many bytes it has. Returns 14 or 0
// (RULES.md, 5; embulgri.h). Example: a right packet with the vendor "v" stores 12 and 1.
pub fn embulgri_tags_vendor(packet: &[u8], part: &mut [u64; 2]) -> u32
    ensures { VendorIn packet.now result part.old part.new }
{
    store_part(tags_reader::find_vendor(packet), part)
}

// Finds comment i of a comment header, the first being 0. Into `part`: where it starts in the packet, and how many bytes it
// has. Returns 14, 20 or 0 (RULES.md, 5; embulgri.h).
// Example: with the vendor "v" and the comments "a=1" and "b=2", comment 1 stores 28 and 3, and comment 2 returns 20.
pub fn embulgri_tags_comment(packet: &[u8], i: u64, part: &mut [u64; 2]) -> u32
    ensures { CommentIn packet.now i result part.old part.new }
{
    store_part(tags_reader::find_comment(packet, i as usize), part)
}

// Reads the gain in comment i of a comment header. Into `gain`: the gain in 16 bits. Returns 14, 20, 21 or 0 (RULES.md, 5;
// embulgri.h). Example: the comment "b=2" stores 2, and the comment "R128_TRACK_GAIN=-573" stores 64963.
pub fn embulgri_tags_gain(packet: &[u8], i: u64, gain: &mut u64) -> u32
    ensures { GainIn packet.now i result gain.old gain.new }
{
    let read = tags_parts::gain(packet, i as usize);
    match read {
        Ok(g) => {
            *gain = number_signed::unsigned16(g) as u64;
            0
        }
        Err(why) => refusal::number(why) as u32,
    }
}

// Writes one comment header to the start of `out`. Into `written`: how many bytes it has. Returns 23, 22 or 0 (RULES.md, 5;
// embulgri.h). Example: the vendor "v", the text "a=1b=2", the lengths 3 and 3, and an `out` of 31 bytes store 31.
pub fn embulgri_tags_write(
    vendor: &[u8],
    text: &[u8],
    lengths: &[u64],
    out: &mut [u8],
    written: &mut u64,
) -> u32
    ensures { TagsOut vendor.now text.now lengths.now result
        out.old out.new written.old written.new }
{
    let wrote = tags_writer::write_tags(vendor, text, lengths, out);
    match wrote {
        Ok(n) => {
            *written = n as u64;
            0
        }
        Err(why) => refusal::number(why) as u32,
    }
}

// Adds a packet's length in samples to the old clock: into `reading` the sum rounded, into `count` the exact one. Returns 30
// or 0 (RULES.md, 10; embulgri.h). Example: 0.0 and 0 with 960 samples become 960.0 and 960.
pub fn embulgri_clock_add(reading: &mut f32, count: &mut u64, samples: u64) -> u32
    ensures { ClockAfter (record { reading = reading.entry.now; count = count.old }) samples result
        (record { reading = reading.exit.now; count = count.new }) }
{
    let clock = Clock {
        reading: *reading,
        count: *count,
    };
    let added = old_clock::add(clock, samples);
    match added {
        Ok(next) => {
            *reading = next.reading;
            *count = next.count;
            0
        }
        Err(why) => refusal::number(why) as u32,
    }
}
