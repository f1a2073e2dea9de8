// Here it is chosen which way a part is fed, and nowhere else. There are four ways, each in crates of its own:
// - folded (`folds`): under the house key, whatever table is lent;
// - sparse (`sparse`): with no table, under a key whose coefficients below t^k are few and low, as those of the stock keys from degree 16 on;
// - by table (`table_lanes`): under any key but the house key, where its table is lent;
// - by bits (`files`): with no table, where neither folding nor the sparse step can be had.
// Whole bytes go one of these ways; the used bits of an unfinished final byte come in behind them by single steps (`files::feed_end`). The difference of two
// pages is fed with no table, and never folded. Pages of a sheet that are not folded go many at a time by tables of their own (`sheet_pages`). These
// functions are for the project's own crates: what they require, every caller proves.
#![tactic(auto)]

ghost use Rattle.std.specs.Prelude.{◌≡◌, true, false, List, ℕ, ◌^◌, ◌<◌, length};
ghost use Rattle.gf2.specs.Polynomials.{◌⊕◌, rem};
ghost use Rattle.gf2.specs.Moduli.{polynomial, Proper};
ghost use Rattle.files.specs.Files.{bits, value_from, fingerprint, as_part, part_bits, misused};
ghost use Rattle.std.specs.Fn.{FnReturnsAt};
ghost use Rattle.house.specs.House.{house_key};

use gf2::Modulus;
use lookups::KeyTable;

// Whole bytes behind a residue, with no table: folded, sparse or by bits.
pub fn bytes_alone(p: Modulus, f: u64, part: &[u8]) -> u64
    requires { Proper p × (f < 2 ^ p.degree) }
    ensures { result ≡ rem (polynomial p) (value_from f (bits part.now)) }
{
    if house::is_house(p) {
        return folds::fed_house(f, part);
    }
    if let Some(n) = sparse::bytes_at_once(p) {
        return sparse::fed(p, n, f, part);
    }
    files::feed_bytes(p, f, part)
}

// Whole bytes behind a residue, by the table of the key: folded or by table.
pub fn bytes_by_table(table: KeyTable<'_>, f: u64, part: &[u8]) -> u64
    requires { f < 2 ^ table.p.degree }
    ensures { result ≡ rem (polynomial table.entry.p) (value_from f (bits part.now)) }
{
    if house::is_house(table.p) {
        return folds::fed_house(f, part);
    }
    table_lanes::fed(table, f, part)
}

// A part behind a residue: its whole bytes by `bytes`, and the used bits behind them. A part with no unfinished byte is fed by a call of its own: what is
// called from two places stays a function of its own, and is faster so.
fn part_by<F: Fn(&[u8]) -> u64>(p: Modulus, f: u64, part: &[u8], used: u32, bytes: F) -> u64
    requires given { Proper p × (f < 2 ^ p.degree) × (misused (as_part part.now used) ≡ false) }
    requires callable { F.IsAlwaysCallable bytes }
    requires feeds { (whole : List ℕ) (r : ℕ) → FnReturnsAt F.Fn bytes whole r → r ≡ rem (polynomial p) (value_from f (bits whole)) }
    ensures { result ≡ rem (polynomial p) (value_from f (part_bits (as_part part.now used))) }
{
    if used == 8 {
        return bytes(part);
    }
    let whole = files::whole_bytes(part, used);
    let x = bytes(&part[..whole]);
    files::feed_end(p, x, part, used)
}

// A part behind a residue, with no table.
pub fn part_alone(p: Modulus, f: u64, part: &[u8], used: u32) -> u64
    requires { Proper p × (f < 2 ^ p.degree) × (misused (as_part part.now used) ≡ false) }
    ensures { result ≡ rem (polynomial p) (value_from f (part_bits (as_part part.now used))) }
{
    part_by(p, f, part, used, |whole| bytes_alone(p, f, whole))
}

// The same by the key's table.
pub fn part_by_table(table: KeyTable<'_>, f: u64, part: &[u8], used: u32) -> u64
    requires { (f < 2 ^ table.p.degree) × (misused (as_part part.now used) ≡ false) }
    ensures { result ≡ rem (polynomial table.entry.p) (value_from f (part_bits (as_part part.now used))) }
{
    part_by(
        table.p,
        f,
        part,
        used,
        |whole| bytes_by_table(table, f, whole),
    )
}

// The residue of the difference of two lists of bytes, which are equally many, with no table: sparse or by bits. The house key's is sparse too: folding
// would take two passes, and 6 KiB of stack.
fn bytes_difference(p: Modulus, old: &[u8], new: &[u8]) -> u64
    requires { Proper p × (length old.now ≡ length new.now) }
    ensures { result ≡ rem (polynomial p) (value_from 0 (bits old.now) ⊕ value_from 0 (bits new.now)) }
{
    if let Some(n) = sparse::bytes_at_once(p) {
        return sparse::difference(p, n, old, new);
    }
    files::difference(p, old, new)
}

// The difference of the fingerprints of two pages of one length: that of their whole bytes, and of the used bits behind them.
pub fn page_difference(p: Modulus, old: &[u8], new: &[u8], used: u32) -> u64
    requires { Proper p × (length old.now ≡ length new.now) × (misused (as_part old.now used) ≡ false) × (misused (as_part new.now used) ≡ false) }
    ensures { result ≡ fingerprint (polynomial p) (part_bits (as_part old.now used))
        ⊕ fingerprint (polynomial p) (part_bits (as_part new.now used)) }
{
    let front = files::whole_bytes(old, used);
    let x = bytes_difference(p, &old[..front], &new[..front]);
    files::difference_end(p, x, old, new, used)
}

// Whether pages of a size are folded: under the house key, from 512 bytes on. Measured on 16 MiB beside the tables: at 16 bytes folding takes 1.4 times as
// long, from 128 to 448 bytes it is at most 7 % faster, at 512 bytes 1.3 times as fast, at 1,024 bytes 2.2 times and at 4,096 bytes 4.2 times.
pub fn pages_folded(p: Modulus, size: usize) -> bool
    ensures { result ≡ true → polynomial p ≡ house_key }
{
    512 <= size && house::is_house(p)
}

// The whole bytes of a page behind the leading 1, by the table of the key: folded, as a page is, or by table.
pub fn page_by_table(table: KeyTable<'_>, page: &[u8]) -> u64
    ensures { result ≡ rem (polynomial table.entry.p) (value_from 1 (bits page.now)) }
{
    if house::is_house(table.p) {
        return folds::fed_page(1, page);
    }
    table_lanes::fed(table, 1, page)
}
