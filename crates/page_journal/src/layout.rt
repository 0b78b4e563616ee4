//! Where the numbers of a store stand on the disk.
ghost use Rattle.std.specs.Prelude.{◌≡◌, ◌^◌, ◌≤◌};
ghost use Rattle.page_journal.specs.Pages.{number_pages};

/// The first eight bytes of a store, the text `SLIMUPD1` read as a number, the least byte first.
pub const MARK: u64 = 0x3144_5055_4d49_4c53;

/// How many bytes a page has.
pub const PAGE: usize = 4096;

/// The same, for places on the disk.
pub const PAGE_LEN: u64 = PAGE as u64;

/// How many bytes the first two pages have.
pub const HEAD: usize = 2 * PAGE;

/// How many bytes of neighbouring pages are held back to be written in one call.
pub const RUN: usize = 16 * PAGE;

/// How many numbers fit a page.
pub const PER_PAGE: usize = PAGE / 8;

/// Where page 0 has the number of the journal's first page.
pub const FIRST_AT: u64 = 8;

/// Where page 0 has the number of the pages in the journal.
pub const COUNT_AT: u64 = 16;

/// Where the fields of the journal end.
pub const FIELDS_END: u64 = 24;

/// Where page 0 has the gate of the journal.
pub const GATE_AT: u64 = PAGE_LEN - 1;

/// The one value of the gate that means that the journal counts.
pub const OPEN: u8 = 1;

/// The value that is written to shut the gate.
pub const SHUT: u8 = 0;

/// Where page 1, the root, stands. Its first number is that of the home pages.
pub const ROOT_AT: u64 = PAGE_LEN;

/// Where the root has the format.
pub const FORMAT_AT: u64 = ROOT_AT + 8;

/// The format that is written.
pub const FORMAT: u64 = 1;

/// How many pages so many numbers take.
pub fn number_page_count(count: u64) -> u64
    requires { count ≤ 2 ^ 62 }
    ensures { result ≡ number_pages count }
{
    (count + (PER_PAGE as u64 - 1)) / PER_PAGE as u64
}
