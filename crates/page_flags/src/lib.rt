// The three marks in the flags of a page: continued, first and last.
#![tactic(auto)]

ghost use Rattle.std.specs.Prelude.{◌≡◌};
ghost use Rattle.page_flags.specs.Flags.{is_continued, is_first_page, is_last_page};

// Whether the page is marked as one that continues a packet, by flag 1 (RULES.md, 3; RFC 3533, 6).
// Example: `is_continued(5)` is true, and `is_continued(4)` is false.
pub fn is_continued(flags: u8) -> bool
    ensures { result ≡ is_continued flags }
{
    flags % 2 == 1
}

// Whether the page is marked first of its stream, by flag 2 (RULES.md, 3; RFC 3533, 6).
// Example: `is_first_page(2)` is true, and `is_first_page(5)` is false.
pub fn is_first_page(flags: u8) -> bool
    ensures { result ≡ is_first_page flags }
{
    flags / 2 % 2 == 1
}

// Whether the page is marked last of its stream, by flag 4 (RULES.md, 3; RFC 3533, 6).
// Example: `is_last_page(5)` is true, and `is_last_page(2)` is false.
pub fn is_last_page(flags: u8) -> bool
    ensures { result ≡ is_last_page flags }
{
    flags / 4 % 2 == 1
}
