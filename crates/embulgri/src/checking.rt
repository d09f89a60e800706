// What the writer of a stream was advised against, for programs in C, Rust and Python (RULES.md, 18).
ghost use Rattle.embulgri.specs.Checking.{CheckedIn};

// Checks a whole stream. Into `kinds` and `pages`: its findings, by page and then by kind. Into `count`: how many they are. Returns
// the number that refuses the stream, 2 to 18 or 24; else 22 where the shorter list has fewer places than there are findings; or
// 0. A refusal changes nothing (RULES.md, 18; embulgri.h).
// Example: no bytes return 24, and the two header pages of a stream alone store the kind 2, the page 1 and the count 1.
pub fn embulgri_check(stream: &[u8], kinds: &mut [u64], pages: &mut [u64], count: &mut u64) -> u32
    ensures { CheckedIn stream.now result kinds.old kinds.new
        pages.old pages.new count.old count.new }
{
    match check_stream::check(stream, kinds, pages) {
        Ok(n) => {
            *count = n as u64;
            0
        }
        Err(why) => refusal::number(why) as u32,
    }
}
