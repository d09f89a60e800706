// The lines that the program prints, for it alone: those of a listing and those of both headers. Each function puts whole lines
// into a lent buffer (RULES.md, 11 and 13).
ghost use Rattle.text_put.specs.Writing.{Put};
ghost use Rattle.list_lines.specs.Lines.{first_line, refused_line};
ghost use Rattle.embulgri.specs.Lines.{state_total, EntriesIn, HeaderLines};

// The line above all packets, from place `at` of `out` on: it returns the place after it, or `at` where it does not fit
// (embulgri.h). Example: with at 0 and an `out` of 20 bytes or more it returns 20.
pub fn embulgri_list_first(out: &mut [u8], at: u64) -> u64
    ensures { Put out.old at first_line result out.new }
{
    list_lines::put_first(out, at as usize) as u64
}

// The line of the totals of a reader, from place `at` of `out` on: it returns the place after it, or `at` where it does not
// fit (embulgri.h). Example: of sixteen zeros it puts "total kept=0 skipped=0 trimmed=0 hole=0" and a line feed.
pub fn embulgri_list_total(state: &[u64; 16], out: &mut [u8], at: u64) -> u64
    ensures { Put out.old at (state_total state.now) result out.new }
{
    let s = *state;
    list_lines::put_total(out, at as usize, s[10], s[11], s[12], s[13]) as u64
}

// The line of a refusal, from place `at` of `out` on: it returns the place after it, or `at` where it does not fit
// (embulgri.h). Example: number 4 and page 2 put "refused 4 page 2" and a line feed.
pub fn embulgri_list_refused(number: u64, page: u64, out: &mut [u8], at: u64) -> u64
    ensures { Put out.old at (refused_line number page) result out.new }
{
    list_lines::put_refused(out, at as usize, number, page) as u64
}

// The lines of packets, from place `at` of `out` on, as long as the longest line would fit. Into `put`: how many lines, and the
// place after them (embulgri.h). Example: the end 960, the length 960, 1 frame and 648 kept put "960 960 1 648" and a line feed.
pub fn embulgri_list_entries(
    ends: &[u64],
    lengths: &[u64],
    frames: &[u64],
    kept: &[u64],
    out: &mut [u8],
    at: u64,
    put: &mut [u64; 2],
)
    ensures { EntriesIn ends.now lengths.now frames.now kept.now at
        out.old out.new put.new }
{
    let listed = list_entries::put_entries(out, at as usize, ends, lengths, frames, kept);
    *put = [listed.count as u64, listed.at as u64];
}

// All lines that show an identification header and a comment header, at the start of `out`. Into `written`: how many bytes they
// have. Returns 12, 13, 14, 22 or 0 (embulgri.h).
// Example: the two headers of a recording store the number of bytes that `embulgri tags` prints of it.
pub fn embulgri_header_lines(head: &[u8], tags: &[u8], out: &mut [u8], written: &mut u64) -> u32
    ensures { HeaderLines head.now tags.now result
        out.old out.new written.old written.new }
{
    let wrote = list_headers::write_headers(head, tags, out);
    match wrote {
        Ok(n) => {
            *written = n as u64;
            0
        }
        Err(why) => refusal::number(why) as u32,
    }
}
