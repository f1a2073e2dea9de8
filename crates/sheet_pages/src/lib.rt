// The fingerprints of a file's pages, by tables, or by folding under the house key. These functions are for the project's own crates: what they
// require, every caller proves.
#![tactic(auto)]

ghost use Rattle.std.specs.Prelude.{◌≡◌, false, ◌*◌, ◌/◌, ◌≤◌, ◌<◌, min, length};
ghost use Rattle.gf2.specs.Moduli.{polynomial, Proper};
ghost use Rattle.files.specs.Files.{fingerprint, as_part, part_bits, misused};
ghost use Rattle.sheets.specs.Sheets.{page_of};
ghost use Rattle.sheets.specs.Inner.{filling};
ghost use Rattle.sheet_pages.specs.Blocks.{FedBy, NextPages};
ghost use Rattle.page_marks.specs.Marks.{Finished};

mod page_tables;

use gf2::Modulus;
use lookups::KeyTable;
pub use page_tables::PageTables;

// The tables made where they are read: none where pages are folded.
pub fn make_tables<'a>(
    words: &'a mut [u64],
    eights: &'a mut [u64],
    p: Modulus,
    size: usize,
) -> Option<PageTables<'a>>
    requires { Proper p × (8 ≤ p.degree) × (length words.old ≡ 1024) × (length eights.old ≡ 2048) }
    ensures { FedBy p result }
{
    if feeding::pages_folded(p, size) {
        return None;
    }
    lookups::fill_table(words, p);
    shifts::fill(eights, p, 8);
    let table = KeyTable { words, p };
    Some(PageTables { table, eights })
}

// How a file is cut into pages: the opened key, the bytes of a page, the used bits of the file's final byte, and whether a last page is filled up.
#[derive(Clone, Copy)]
pub struct Paging {
    pub p: Modulus,
    pub size: usize,
    pub used: u32,
    pub filled: bool,
}

// How many whole pages the next block has: all that are left, at most 64. The comparison spares a division for each full block.
fn block(left: usize, size: usize) -> usize
    requires { (0 < size) × (size ≤ 4096) }
    ensures { result ≡ min (left / size) 64 }
{
    if 64 * size <= left {
        return 64;
    }
    left / size
}

// The fingerprints of whole pages, one for each of the marks: by folding where there is no table.
fn whole_marks(marks: &mut [u64], tables: Option<PageTables<'_>>, x: Paging, pages: &[u8])
    requires { FedBy x.p tables × (8 ≤ x.size) × (length marks.old * x.size ≤ length pages.now) }
    ensures { Finished (polynomial x.p) x.size (length marks.old) pages.now marks.new }
{
    match tables {
        None => page_marks::fold_pages(marks, x.size, pages),
        Some(t) => {
            let whole = x.size / 8 * 8;
            page_marks::begin_pages(marks, t.eights, x.size, whole, pages);
            page_marks::finish(marks, t.table, x.size, whole, pages);
        }
    }
}

// The fingerprint of a last page at its own length: its whole bytes behind the leading 1, by folding where there is no table, and the used
// bits behind them.
fn fed_last(tables: Option<PageTables<'_>>, x: Paging, page: &[u8]) -> u64
    requires { FedBy x.p tables × (misused (as_part page.now x.used) ≡ false) }
    ensures { result ≡ fingerprint (polynomial x.p) (part_bits (as_part page.now x.used)) }
{
    let whole = files::whole_bytes(page, x.used);
    let front = match tables {
        None => folds::fed_page(1, &page[..whole]),
        Some(t) => feeding::page_by_table(t.table, &page[..whole]),
    };
    files::feed_end(x.p, front, page, x.used)
}

// The fingerprint of a last page, filled up or not: zeros behind it come in as one power of t.
fn last_page(tables: Option<PageTables<'_>>, x: Paging, page: &[u8]) -> u64
    requires { FedBy x.p tables × (length page.now ≤ x.size) × (x.size ≤ 4096) × (misused (as_part page.now x.used) ≡ false) }
    ensures { result ≡ fingerprint (polynomial x.p)
        (page_of (filling x.filled) (8 * x.size) (part_bits (as_part page.now x.used))) }
{
    let own = fed_last(tables, x, page);
    if x.filled {
        let bits = 8 * (x.size as u64);
        return files::with_zeros(x.p, own, bits - files::part_length(page, x.used));
    }
    own
}

// The fingerprints of the next pages, at most 64, into the first places: how many. A page whose final byte is not used whole is no whole page.
pub fn next_pages(
    marks: &mut [u64],
    tables: Option<PageTables<'_>>,
    x: Paging,
    rest: &[u8],
) -> usize
    requires { FedBy x.p tables × (8 ≤ x.size) × (x.size ≤ 4096) × (64 ≤ length marks.old)
        × (misused (as_part rest.now x.used) ≡ false) }
    ensures { NextPages (filling x.filled) (polynomial x.p) x.size (as_part rest.now x.used) result
        marks.old marks.new }
{
    let n = block(files::whole_bytes(rest, x.used), x.size);
    whole_marks(&mut marks[..n], tables, x, rest);
    if n == 64 || rest.len() <= n * x.size {
        return n;
    }
    marks[n] = last_page(tables, x, &rest[n * x.size..]);
    n + 1
}
