// Feeding a page of the input to the core of a reader as it is tidied, by its parts: no checksum is worked out.
#![tactic(auto)]

ghost use Rattle.std.specs.Prelude.{◌≡◌, true, false};
ghost use Rattle.page_crc.specs.Crc.{page_crc};
ghost use Rattle.page_reader.specs.Reading.{read_page};
ghost use Rattle.salvage_search.specs.Search.{is_good};
ghost use Rattle.stream.specs.Lent.{is_short, at_entry};
ghost use Rattle.salvage_feed.specs.Feeding.{tidied_bytes, FeedsTidied};

use salvage_rules::Form;
use stream::Core;

// Feeds a page as it is tidied, as number `number` of the list, to the core of a reader (RULES.md, 7 and 16): the page being
// one by 3 and 4, and with room for the feeding (1), this is one step of feeding the tidied page's bytes, whose checksum is
// right by its making and is not worked out. A refusal keeps the core and the held bytes. Nothing is counted of the page: the
// tally decides nothing.
// Example: `feed_start::start_core()` and a right first page, none of its pieces removed, as number 0, give a core in
// `Phase::Comment`; as number 1 the page is refused.
pub fn feed_tidied(
    core: Core,
    page: &[u8],
    form: Form,
    number: u32,
    carry: &mut [u8],
    ends: &mut [u64],
    lengths: &mut [u64],
    kept: &mut [u64],
    frames: &mut [u64],
) -> Option<Core>
    ensures { is_good (read_page page_crc page.now) ≡ true →
        is_short (at_entry carry ends lengths kept frames) ≡ false →
        FeedsTidied core (tidied_bytes form number page.now) carry.old result carry.new }
{
    let h = salvage_page::header_kept(page, form, number);
    let lacing = salvage_page::lacing_kept(page, form);
    let body = salvage_page::body_kept(page, form);
    let tally = feed_start::no_tally();
    match feed_page::feed_parts(
        core, tally, h, lacing, body, carry, ends, lengths, kept, frames,
    ) {
        Ok(fed) => Some(fed.core),
        Err(_) => None,
    }
}
