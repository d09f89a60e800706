// Salvage of damaged streams, for programs in C, Rust and Python (RULES.md, 16).
ghost use Rattle.text_put.specs.Writing.{Put};
ghost use Rattle.salvage_lines.specs.Lines.{change_line};
ghost use Rattle.embulgri.specs.Saving.{SalvagedIn};

// Saves what can be saved of a stream of which some bytes may be damaged. Into `out`: the stream that is saved. Into `what`,
// `places` and `sizes`: a line for each thing skipped or changed. Into `counts`: how many bytes and how many lines. Returns 1
// where the work list has fewer places than a 27th of the bytes; else 24 where no page is marked first or a header is lost;
// else 22 where the output or a list is too short; or 0. A refusal changes the work list alone, and what that holds at the end
// is free (RULES.md, 16; embulgri.h).
// Example: the bytes of a whole stream, with as much room, return 0 and store their number and 0.
pub fn embulgri_salvage(
    bytes: &[u8],
    work: &mut [u64],
    out: &mut [u8],
    what: &mut [u64],
    places: &mut [u64],
    sizes: &mut [u64],
    counts: &mut [u64; 2],
) -> u32
    ensures { SalvagedIn bytes.now result work out what places sizes counts.old counts.new }
{
    match salvage::salvage(bytes, work, out, what, places, sizes) {
        Ok(saved) => {
            *counts = [saved.bytes as u64, saved.lines as u64];
            0
        }
        Err(why) => refusal::number(why) as u32,
    }
}

// The line of something that salvage skipped or changed, from place `at` of `out` on: it returns the place after it, or `at`
// where it does not fit (embulgri.h). Example: 3, 5123 and 255 put "cut 5123 255" and a line feed.
pub fn embulgri_salvage_line(what: u64, place: u64, bytes: u64, out: &mut [u8], at: u64) -> u64
    ensures { Put out.old at (change_line what place bytes) result out.new }
{
    salvage_lines::put_change(out, at as usize, what, place, bytes) as u64
}
