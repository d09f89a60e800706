// A stream in a buffer, whole or damaged, for programs in C, Rust and Python (RULES.md, 15 and 16).
ghost use Rattle.std.specs.Prelude.{◌≡◌};
ghost use Rattle.page_crc.specs.Crc.{page_crc};
ghost use Rattle.stream.specs.Readings.{readings};
ghost use Rattle.recording.specs.Judging.{judge_buffer};
ghost use Rattle.salvage_search.specs.Search.{next_page};
ghost use Rattle.embulgri.specs.Streams.{JudgedIn};

use refusal::Refusal;

// Judges a stream: its pages are fed to a reader just started. Into `page`, where one is refused: its number, the first being 0.
// Returns the number of that refusal, 2 to 18; else 24 where the comment header is not complete, and then, as under 0, nothing is
// stored (RULES.md, 15; embulgri.h).
// Example: no bytes return 24; the pages of a whole stream return 0, and without the last byte 3 and the number of its last page.
pub fn embulgri_judge(stream: &[u8], page: &mut u64) -> u32
    ensures { JudgedIn (judge_buffer (readings page_crc) stream.now) result page.old page.new }
{
    match recording::judge(stream) {
        Ok(_) => 0,
        Err(refused) => {
            let number = refusal::number(refused.why);
            if number == refusal::number(Refusal::HeadersIncomplete) {
                return number as u32;
            }
            *page = refused.page as u64;
            number as u32
        }
    }
}

// Returns the least place at or after `from` at which a whole page with a right checksum starts, or the number of the bytes where
// there is none (RULES.md, 16; embulgri.h). It stores nothing and refuses nothing.
// Example: of one byte and a right page of 27 bytes after it, `from` 0 returns 1, and `from` 2 returns 28.
pub fn embulgri_next_page(bytes: &[u8], from: u64) -> u64
    ensures { result ≡ next_page page_crc bytes.now from }
{
    salvage_search::next_page(bytes, from as usize) as u64
}
