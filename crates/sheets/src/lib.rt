// Page sheets: the numbers of a sheet, and what a check finds. The definitions are in specs/, their laws in proofs/; the layout in code is in the crate
// sheet_layout, and the calls are in the crates sheet_writing, sheet_reading and sheet_checking.
#![tactic(auto)]

use acceptance::Key;

// The numbers of a sheet: its version, its key, the file's length in bits, the page size in bytes, the number of pages and the file's
// fingerprint.
#[derive(Clone, Copy)]
pub struct Sheet {
    pub version: u64,
    pub key: Key,
    pub length: u64,
    pub size: u64,
    pub pages: u64,
    pub fingerprint: u64,
}

// A file compared with a sheet: the first page whose fingerprint differs, or none, or the file has another length. The page is given by its number,
// counted from 0, or by its bytes.
#[derive(Clone, Copy)]
pub enum Comparison<P> {
    Same,
    Page(P),
    OtherLength,
}

// The bytes of a page in its file, from the first to before the last. A type of its own, since an answer can be copied, and std's Range cannot.
#[derive(Clone, Copy)]
pub struct PageBytes {
    pub start: u64,
    pub end: u64,
}
