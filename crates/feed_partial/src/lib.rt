// What feeding tells of the bytes that the end of an input cuts off inside a page. A program that asks here need not feed them.
#![tactic(auto)]

ghost use Rattle.std.specs.Prelude.{◌≡◌};
ghost use Rattle.reader.specs.Answers.{known_as};
ghost use Rattle.feed_partial.specs.Rest.{rest_refusal};

use reader::Reader;
use refusal::Refusal;

// The refusal of bytes that are no whole page: 2 after an end, and else 3 (RULES.md, 7).
// Example: for `reader::start()` it is that of number 3.
pub fn refusal_of_rest(reader: Reader) -> Refusal
    ensures { result ≡ rest_refusal (known_as reader) }
{
    if reader::is_ended(reader) {
        Refusal::AfterEnd
    } else {
        Refusal::NotOnePage
    }
}
