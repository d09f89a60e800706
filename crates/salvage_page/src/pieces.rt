// The leading and the trailing piece of a page by its lacing values, and lacing values and body without them.
ghost use Rattle.std.specs.Prelude.{◌≡◌, ◌≤◌, length};
ghost use Rattle.octets.specs.Octets.{total};
ghost use Rattle.page_lacing.specs.Lacing.{unfinished};
ghost use Rattle.salvage_rules.specs.Tidy.{up_to_last, first_bytes};
ghost use Rattle.salvage_page.specs.Tidied.{LeadValues, KeptValues, lastless, firstless, lastless_body, firstless_body};
ghost use Rattle.salvage_page.specs.Tidied.{CutBytes};

// How many values the leading piece has.
fn lead_values(lacing: &[u8]) -> usize
    ensures { LeadValues lacing.now result }
{
    match lacing.iter().position(|v| *v < 255) {
        Some(i) => i + 1,
        None => lacing.len(),
    }
}

// How many values there are up to the last that ends a packet.
fn kept_values(lacing: &[u8]) -> usize
    ensures { KeptValues lacing.now result }
{
    let mut n = lacing.len();
    while 0 < n {
        if lacing[n - 1] < 255 {
            return n;
        }
        n -= 1;
    }
    n
}

// The values without those of the trailing piece, where that goes.
pub(crate) fn without_trail(lacing: &[u8], trail: bool) -> &[u8]
    ensures { result.now ≡ lastless trail lacing.now }
{
    if !trail {
        return lacing;
    }
    let n = kept_values(lacing);
    &lacing[..n]
}

// The values without those of the leading piece, where that goes.
pub(crate) fn without_lead(lacing: &[u8], lead: bool) -> &[u8]
    ensures { result.now ≡ firstless lead lacing.now }
{
    if !lead {
        return lacing;
    }
    let n = lead_values(lacing);
    &lacing[n..]
}

// The bytes of the leading piece.
pub(crate) fn lead_bytes(lacing: &[u8]) -> usize
    requires { length lacing.now ≤ 255 }
    ensures { CutBytes (first_bytes lacing.now) result }
{
    let n = lead_values(lacing);
    page_lacing::sum_of(&lacing[..n])
}

// The bytes before the trailing piece.
fn kept_bytes(lacing: &[u8]) -> usize
    requires { length lacing.now ≤ 255 }
    ensures { result ≡ total (up_to_last lacing.now) }
{
    let n = kept_values(lacing);
    page_lacing::sum_of(&lacing[..n])
}

// The bytes of the trailing piece.
pub(crate) fn trail_bytes(lacing: &[u8]) -> usize
    requires { length lacing.now ≤ 255 }
    ensures { CutBytes (unfinished lacing.now) result }
{
    let n = kept_values(lacing);
    page_lacing::sum_of(&lacing[n..])
}

// The body without the trailing piece, where that goes.
pub(crate) fn body_without_trail<'a>(lacing: &[u8], body: &'a [u8], trail: bool) -> &'a [u8]
    requires { length lacing.now ≤ 255 }
    ensures { result.now ≡ lastless_body trail lacing.now body.now }
{
    if !trail {
        return body;
    }
    octets::part_of(body, 0, kept_bytes(lacing))
}

// The body without the leading piece, where that goes.
pub(crate) fn body_without_lead<'a>(lacing: &[u8], body: &'a [u8], lead: bool) -> &'a [u8]
    requires { length lacing.now ≤ 255 }
    ensures { result.now ≡ firstless_body lead lacing.now body.now }
{
    if !lead {
        return body;
    }
    octets::part_of(body, lead_bytes(lacing), body.len())
}
