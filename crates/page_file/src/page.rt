// The only page of a database that has no table yet.
ghost use Rattle.std.specs.Prelude.{◌≡◌};
ghost use Rattle.page_file.specs.FirstPage as wanted;
ghost use Rattle.sqlite_pool.specs.Header as library;

/// How many bytes a page has.
pub const PAGE_SIZE: usize = 1024;

/// The first page of a database without a table, as SQLite's file format has it; the library makes the same, where it makes one of
/// this size.
pub fn first_page() -> [u8; PAGE_SIZE]
    ensures format { result ≡ wanted.first_page }
    ensures library { result ≡ library.first_page 1024 }
{
    let mut page = [0; PAGE_SIZE];
    page[..16].copy_from_slice(b"SQLite format 3\0");
    // The size of a page, a log for both who write and who read, and what never differs.
    page[16..24].copy_from_slice(&[4, 0, 2, 2, 0, 64, 32, 32]);
    // It is the only page.
    page[31] = 1;
    // The tables as they were first, in format 4, with texts in UTF-8.
    page[43] = 1;
    page[47] = 4;
    page[59] = 1;
    // The release of SQLite.
    page[97..100].copy_from_slice(&[46, 118, 136]);
    // A leaf of a table, whose rows would begin at the end of the page.
    page[100] = 13;
    page[105] = 4;
    page
}
