// Reading an Ogg page (RFC 3533): its shape, its checksum, its fields.
#![tactic(auto)]

ghost use Rattle.std.specs.Prelude.{◌≡◌};
ghost use Rattle.page_crc.specs.Crc.{page_crc};
ghost use Rattle.page_crc_tables.specs.Table.{entry_in};
ghost use Rattle.page_crc.specs.Sliced.{page_sliced};
ghost use Rattle.page_reader.specs.Reading.{read_page};
ghost use Rattle.refusal.specs.Told.{told};

use page_layout::{CHECKSUM_AT, PageHeader};
use refusal::Refusal;

// The same as `read_page`, by lent tables: those of `page_crc_tables::table::tables` give the checksum, and others what they
// give (RULES.md, 3). Whoever reads many small pages makes the tables once.
// Example: by those tables "OggS" and 23 zero bytes are refused by 4, as `read_page` refuses them.
pub fn read_page_with(tables: &[u32; 4096], page: &[u8]) -> Result<PageHeader, Refusal>
    ensures { told result ≡ read_page (page_sliced (entry_in tables.now)) page.now }
{
    if !page_size::is_one_page(page) {
        return Err(Refusal::NotOnePage);
    }
    if page_crc::page_checksum_with(tables, page) != number_reader::number32(page, CHECKSUM_AT) {
        return Err(Refusal::WrongChecksum);
    }
    Ok(page_layout::header_of(page))
}

// The fields of the page that the bytes are. 3: they are not exactly one whole page, or its version is not 0. 4: not 3, and
// the checksum differs. Flags above 7 are read as they are.
// Example: "OggS" and 23 zero bytes are refused by 4. After `page_writer::renew_checksum` they are a page of no lacing values.
pub fn read_page(page: &[u8]) -> Result<PageHeader, Refusal>
    ensures { told result ≡ read_page page_crc page.now }
{
    if !page_size::is_one_page(page) {
        return Err(Refusal::NotOnePage);
    }
    if page_crc::page_checksum(page) != number_reader::number32(page, CHECKSUM_AT) {
        return Err(Refusal::WrongChecksum);
    }
    Ok(page_layout::header_of(page))
}
