// The fingerprints of whole pages, one behind the other, by tables, or by folding under the house key. These functions are for the project's own
// crates: what they require, every caller proves.
#![tactic(auto)]

ghost use Rattle.std.specs.Prelude.{◌≡◌, ◌+◌, ◌-◌, ◌*◌, ◌%◌, ◌≤◌, ◌<◌, min, length};
ghost use Rattle.gf2.specs.Polynomials.{rem};
ghost use Rattle.gf2.specs.Moduli.{polynomial};
ghost use Rattle.files.specs.Files.{bits, value_from};
ghost use Rattle.house.specs.House.{house_key};
ghost use Rattle.page_marks.specs.Marks.{Begun, BegunBy, Reduced, Finished};

use lookups::KeyTable;

// The page that is fed beside page i, of n pages: the next one, or page i itself where it is the last.
fn beside(i: usize, n: usize) -> usize
    requires { i < n }
    ensures { result ≡ min (i + 1) (n - 1) }
{
    if i < n - 1 { i + 1 } else { i }
}

// The first bytes of each of the pages, `whole` of them, in groups of eight, a mark for each page: two pages side by side, which do not wait
// for each other. A function of its own in the machine code, where the address
// of the table stays in a register: 16-byte pages take a fifth longer where it is not.
#[inline(never)]
pub fn begin_pages(marks: &mut [u64], eights: &[u64], size: usize, whole: usize, pages: &[u8])
    requires { (length eights.now ≡ 2048) × (8 ≤ whole) × (whole % 8 ≡ 0) × (whole ≤ size)
        × (length marks.old * size ≤ length pages.now) }
    ensures { BegunBy eights.now size whole (length marks.old) pages.now marks.new }
{
    let n = marks.len();
    for i in (0..n).step_by(2) {
        let j = beside(i, n);
        let a = i * size;
        let b = j * size;
        let x = shifts::feed_eights(eights, &pages[a..a + whole], &pages[b..b + whole]);
        marks[i] = x.0;
        marks[j] = x.1;
    }
}

// The residue of x with the bytes that are left of a page behind it.
fn finished(table: KeyTable<'_>, x: u64, rest: &[u8]) -> u64
    ensures { result ≡ rem (polynomial table.entry.p) (value_from x (bits rest.now)) }
{
    let f = table.residue(x);
    if rest.is_empty() {
        return f;
    }
    table_lanes::fed(table, f, rest)
}

// The fingerprints of pages that are begun: each number is reduced, and the bytes that are left of its page are fed behind it.
fn finish_pages(marks: &mut [u64], table: KeyTable<'_>, size: usize, whole: usize, pages: &[u8])
    requires { (whole ≤ size) × (length marks.old * size ≤ length pages.now)
        × Begun (polynomial table.p) size whole (length marks.old) pages.now marks.old }
    ensures { Finished (polynomial table.entry.p) size (length marks.old) pages.now marks.new }
{
    for (i, mark) in marks.iter_mut().enumerate() {
        let a = i * size;
        *mark = finished(table, *mark, &pages[a + whole..a + size]);
    }
}

// The residue of a number of 64 bits at a degree of 56 to 63: what stands at t^k and above is at most a byte.
fn cut(table: KeyTable<'_>, x: u64) -> u64
    requires { (56 ≤ table.p.degree) × (table.p.degree < 64) }
    ensures { result ≡ rem (polynomial table.entry.p) x }
{
    let k = table.p.degree;
    gf2::low_bits(x, k) ^ table.words[(x >> k) as usize]
}

// Each number becomes its residue, at such a degree.
fn cut_marks(marks: &mut [u64], table: KeyTable<'_>)
    requires { (56 ≤ table.p.degree) × (table.p.degree < 64) }
    ensures { Reduced (polynomial table.entry.p) (length marks.old) marks.old marks.new }
{
    for mark in marks.iter_mut() {
        *mark = cut(table, *mark);
    }
}

// The fingerprints of pages that are begun. Where nothing is left of a page, and at the degrees that most keys have, in a loop of few steps.
pub fn finish(marks: &mut [u64], table: KeyTable<'_>, size: usize, whole: usize, pages: &[u8])
    requires { (whole ≤ size) × (length marks.old * size ≤ length pages.now)
        × Begun (polynomial table.p) size whole (length marks.old) pages.now marks.old }
    ensures { Finished (polynomial table.entry.p) size (length marks.old) pages.now marks.new }
{
    let k = table.p.degree;
    if whole == size && 56 <= k && k < 64 {
        cut_marks(marks, table);
    } else {
        finish_pages(marks, table, size, whole, pages);
    }
}

// The fingerprints of pages under the house key, by folding: no table is read.
pub fn fold_pages(marks: &mut [u64], size: usize, pages: &[u8])
    requires { length marks.old * size ≤ length pages.now }
    ensures { Finished house_key size (length marks.old) pages.now marks.new }
{
    for (i, mark) in marks.iter_mut().enumerate() {
        let a = i * size;
        *mark = folds::fed_page(1, &pages[a..a + size]);
    }
}
