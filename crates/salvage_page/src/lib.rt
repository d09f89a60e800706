// One page of salvage: what joins it to its neighbours, which of its pieces are removed, and the page without them.
#![tactic(auto)]

ghost use Rattle.std.specs.Prelude.{◌≡◌, ◌-◌, not, ◌&&◌};
ghost use Rattle.octets.specs.Pick.{pick};
ghost use Rattle.page_lacing.specs.Lacing.{unfinished};
ghost use Rattle.page_layout.specs.Page.{header_of};
ghost use Rattle.stream.specs.Page.{page_of, ends};
ghost use Rattle.salvage_rules.specs.Tidy.{open_after, first_bytes, renewed};
ghost use Rattle.salvage_rules.specs.Links.{link_of, follows_link, no_prior, prior_cut, next_prior, form_of, kept_of};
ghost use Rattle.salvage_page.specs.Tidied.{CutBytes, WroteTidied};

use page_layout::{FLAGS_AT, PageHeader, SEQUENCE_AT};
use refusal::Refusal;
use salvage_rules::{Form, Link, Prior};

mod pieces;

// ---- what joins a page to its neighbours

// Whether a packet goes on after these values: the last is 255, or there is none and the page is marked continued.
fn goes_on(continued: bool, lacing: &[u8]) -> bool
    ensures { result ≡ open_after continued lacing.now }
{
    let n = lacing.len();
    if n == 0 {
        return continued;
    }
    lacing[n - 1] == 255
}

// Whether the packet that the page continues goes on after it.
fn goes_through(continued: bool, lacing: &[u8]) -> bool
    ensures { result ≡ continued && not (ends lacing.now) }
{
    if !continued {
        return false;
    }
    !recording_pages::has_end(lacing)
}

// What joins a page to its neighbours (RULES.md, 16; RFC 3533, 5 and 6): its number, whether it is marked continued, whether a
// packet goes on after it, and whether that is the one that it continues. It refuses nothing: any bytes are read as a page, a
// place past their end as zero.
// Example: of page 5, marked continued, with the lacing values 4 and 255 it is
// `Link { sequence: 5, continued: true, onward: true, through: false }`.
pub fn link_of(page: &[u8]) -> Link
    ensures { result ≡ link_of (page_of page.now) }
{
    let lacing = page_layout::lacing_of(page);
    let continued = page_flags::is_continued(octets::byte_at(page, FLAGS_AT));
    Link {
        sequence: number_reader::number32(page, SEQUENCE_AT),
        continued,
        onward: goes_on(continued, lacing),
        through: goes_through(continued, lacing),
    }
}

// Whether the page b follows the page a by their old numbers, modulo 2^32; a break lies between two neighbours that do not
// follow each other (RULES.md, 16). Example: a page of number 0 follows one of number 4294967295.
pub fn follows(a: Link, b: Link) -> bool
    ensures { result ≡ follows_link a b }
{
    b.sequence == std::num::wrapping_add_u32(a.sequence, 1)
}

// ---- what is before a page

// No page is before it (RULES.md, 16). Example: `no_prior().any` is false.
pub fn no_prior() -> Prior
    ensures { result ≡ no_prior }
{
    Prior {
        any: false,
        link: Link {
            sequence: 0,
            continued: false,
            onward: false,
            through: false,
        },
        cut: false,
    }
}

// Whether the packet that the page continues is cut by an earlier break.
fn prior_cut(prior: Prior, link: Link) -> bool
    ensures { result ≡ prior_cut prior link }
{
    if !prior.any {
        return false;
    }
    if !link.continued {
        return false;
    }
    let before = prior.link;
    if follows(before, link) {
        return prior.cut;
    }
    true
}

// What is before the page after this one (RULES.md, 16): this one, and whether the packet that goes on after it was cut by an
// earlier break. Example: after a page marked continued, with the one lacing value 255, behind a break, `cut` is true.
pub fn next_prior(prior: Prior, link: Link) -> Prior
    ensures { result ≡ next_prior prior link }
{
    if !link.through {
        return Prior {
            any: true,
            link,
            cut: false,
        };
    }
    Prior {
        any: true,
        link,
        cut: prior_cut(prior, link),
    }
}

// Which pieces of a page are removed, where `cut` tells whether the packet that goes on after it is cut by a later break
// (RULES.md, 16). The leading piece goes where the packet that the page continues is cut; the trailing one, where it is another
// and `cut` is true.
// Example: behind a break, a page marked continued with the lacing values 4 and 9 loses its leading piece, the 4 bytes.
pub fn form_of(prior: Prior, link: Link, cut: bool) -> Form
    ensures { result ≡ form_of prior link cut }
{
    let lead = prior_cut(prior, link);
    if !cut {
        return Form { lead, trail: false };
    }
    if link.through {
        return Form {
            lead: true,
            trail: false,
        };
    }
    Form { lead, trail: true }
}

// ---- lacing values and body without the removed pieces

// The lacing values of a page without those of its removed pieces (RULES.md, 16; RFC 3533, 5 and 6). It refuses nothing: any
// bytes are read as a page.
// Example: of the values 4, 9 and 255 the leading piece removed leaves 9 and 255, the trailing one removed leaves 4 and 9.
pub fn lacing_kept(page: &[u8], form: Form) -> &[u8]
    ensures { result.now ≡ (kept_of form (page_of page.now)).lacing }
{
    let kept = pieces::without_trail(page_layout::lacing_of(page), form.trail);
    pieces::without_lead(kept, form.lead)
}

// The body of a page without its removed pieces (RULES.md, 16; RFC 3533, 5 and 6). It refuses nothing: any bytes are read as a
// page. Example: of a page of the values 4, 9 and 255 the leading piece removed leaves all but the first 4 bytes.
pub fn body_kept(page: &[u8], form: Form) -> &[u8]
    ensures { result.now ≡ (kept_of form (page_of page.now)).body }
{
    let lacing = page_layout::lacing_of(page);
    let body = pieces::body_without_trail(lacing, page_layout::body_of(page), form.trail);
    pieces::body_without_lead(pieces::without_trail(lacing, form.trail), body, form.lead)
}

// ---- the page tidied

// The flags without the continued mark, where that is cleared.
fn flags_kept(flags: u8, lead: bool) -> u8
    ensures { result ≡ pick lead (flags - 1) flags }
{
    if !lead {
        return flags;
    }
    if flags == 0 {
        return 0;
    }
    flags - 1
}

// The fields of a page tidied (RULES.md, 16): the number given, and no continued mark where the leading piece is removed, which
// only a page with the mark has. It refuses nothing: any bytes are read as a page.
// Example: of a page with the flags 5 that loses its leading piece the flags are 4.
pub fn header_kept(page: &[u8], form: Form, number: u32) -> PageHeader
    ensures { result ≡ renewed form.lead number (header_of page.now) }
{
    let h = page_layout::header_of(page);
    PageHeader {
        flags: flags_kept(h.flags, form.lead),
        granule: h.granule,
        serial: h.serial,
        sequence: number,
    }
}

// The bytes of the leading piece of a page, all of them where no packet ends on it (RULES.md, 16; RFC 3533, 5 and 6).
// Example: of the lacing values 255, 3 and 9 it is 258.
pub fn first_cut(page: &[u8]) -> usize
    ensures { CutBytes (first_bytes (page_of page.now).lacing) result }
{
    pieces::lead_bytes(page_layout::lacing_of(page))
}

// The bytes of the trailing piece of a page: those after the last packet that ends on it (RULES.md, 16; RFC 3533, 5 and 6).
// Example: of the lacing values 3, 255 and 255 it is 510, and of 255 and 3 it is 0.
pub fn last_cut(page: &[u8]) -> usize
    ensures { CutBytes (unfinished (page_of page.now).lacing) result }
{
    pieces::trail_bytes(page_layout::lacing_of(page))
}

// The page tidied, as number `number` of the list, written to the start of `out` with its checksum made (RULES.md, 16;
// RFC 3533, 6). Bytes that are one page by 3 are not refused where `out` has as many bytes. 23: the lacing values do not sum
// to the length of the body. 22: not 23, and `out` is shorter than the tidied page. On refusal nothing is written.
// Example: a page of 31 bytes that loses none of its pieces gives `Ok(31)`.
pub fn write_tidied(page: &[u8], form: Form, number: u32, out: &mut [u8]) -> Result<usize, Refusal>
    ensures { WroteTidied form number page.now out.old result out.new }
{
    let h = header_kept(page, form, number);
    let lacing = lacing_kept(page, form);
    let body = body_kept(page, form);
    page_writer::write_any_page(h, lacing, body, out)
}
