// Crops of a stream, for programs in C, Rust and Python (RULES.md, 17).
ghost use Rattle.page_crc.specs.Crc.{page_crc};
ghost use Rattle.stream.specs.Readings.{readings};
ghost use Rattle.crop_start.specs.Start.{start_found};
ghost use Rattle.embulgri.specs.Cropping.{CroppedIn, StartIn};

// Crops a whole stream at a page, the first being page 0. Into `out`: both headers as they are, and all pages from that one on,
// renumbered, with their checksums made again. Into `written`: how many bytes. Returns the number that refuses the stream, 2 to
// 18 or 24; else 29 where a crop may not begin at the page; else 22 where the output is shorter than the crop; or 0. A refusal
// changes nothing (RULES.md, 17; embulgri.h).
// Example: no bytes return 24, and a whole stream with the page 0 returns 29.
pub fn embulgri_crop(stream: &[u8], page: u64, out: &mut [u8], written: &mut u64) -> u32
    ensures { CroppedIn stream.now page result out.old out.new
        written.old written.new }
{
    match crop::crop(stream, page as usize, out) {
        Ok(n) => {
            *written = n as u64;
            0
        }
        Err(why) => refusal::number(why) as u32,
    }
}

// Finds the last page, of those up to page `last`, at which a crop of the stream may begin and whose first packet starts at or
// before the position. Into `start`: the page, and where that packet starts. Returns the number that refuses the stream, 2 to 18
// or 24; else 29 where there is no such page; or 0. A refusal changes nothing (RULES.md, 17; embulgri.h).
// Example: no bytes return 24, and a whole stream with `last` 0 returns 29.
pub fn embulgri_crop_start(stream: &[u8], last: u64, position: u64, start: &mut [u64; 2]) -> u32
    ensures { StartIn (start_found (readings page_crc) stream.now last position) result
        start.old start.new }
{
    match crop_start::find_start(stream, last as usize, position) {
        Ok(found) => {
            *start = [found.page as u64, found.position];
            0
        }
        Err(why) => refusal::number(why) as u32,
    }
}
