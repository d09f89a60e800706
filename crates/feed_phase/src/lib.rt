// How far a stream has come: whether no page was accepted yet, a header is due, an audio page is due, or the last page was
// marked last.
#![tactic(auto)]

ghost use Rattle.std.specs.Prelude.{◌≡◌};
ghost use Rattle.stream.specs.State.{is_first, in_headers, is_audio, is_ended};

use stream::Phase;

// Whether no page was accepted yet, in a reader that was started (RULES.md, 7).
// Example: `is_first(Phase::First)` is true, and `is_first(Phase::Opened)` is false.
pub fn is_first(phase: Phase) -> bool
    ensures { result ≡ is_first phase }
{
    matches!(phase, Phase::First)
}

// Whether the comment header is not complete yet (RULES.md, 7).
// Example: `in_headers(Phase::Comment)` is true, and `in_headers(Phase::Opened)` is false.
pub fn in_headers(phase: Phase) -> bool
    ensures { result ≡ in_headers phase }
{
    matches!(phase, Phase::First | Phase::Comment)
}

// Whether the stream is among its audio pages (RULES.md, 7): the comment header is complete, or a page came after opening part
// way, and no page marked last was accepted.
// Example: `is_audio(Phase::Audio)` is true, and `is_audio(Phase::Opened)` is false.
pub fn is_audio(phase: Phase) -> bool
    ensures { result ≡ is_audio phase }
{
    matches!(phase, Phase::Audio)
}

// Whether the last page accepted was marked last, so that 2 holds (RULES.md, 2).
// Example: `is_ended(Phase::Ended)` is true, and `is_ended(Phase::Audio)` is false.
pub fn is_ended(phase: Phase) -> bool
    ensures { result ≡ is_ended phase }
{
    matches!(phase, Phase::Ended)
}
