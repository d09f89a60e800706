// Tables for the checksum of an Ogg page (RFC 3533), each a constant whose every entry is proved right by one computed test.
// A constant array is stored again at each call of the function that names it.
#![tactic(auto)]

pub mod halves;
pub mod table;
