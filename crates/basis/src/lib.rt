// Linear algebra over the field of two elements, on rows of 64 bits: bit i is the entry in column i. Are rows independent? These functions are for
// the project's own crates: what they require, every caller proves.
#![tactic(auto)]

ghost use Rattle.std.specs.Prelude.{◌≡◌, ◌*◌, ◌/◌, ◌%◌, ◌^◌, ◌<◌, true, ◌↔◌, map};
ghost use Rattle.lists.specs.Inner.{Scratch};
ghost use Rattle.basis.specs.Rows.{Independent, clear};

// v where column c of x holds a 1, for a v with no 1 below column c: the bit in column c, taken from 0, is mask enough for such a v, which
// is less work than `chosen` by a shifted x.
fn chosen_from(x: u64, c: u32, v: u64) -> u64
    requires { (c < 64) × (v % 2 ^ c ≡ 0) }
    ensures { result ≡ x / 2 ^ c % 2 * v }
{
    let bit: u64 = 1 << c;
    v & (x & bit).wrapping_neg()
}

// A row with column c cleared by v.
fn cleared(r: u64, v: u64, c: u32) -> u64
    requires { (c < 64) × (v % 2 ^ c ≡ 0) }
    ensures { result ≡ clear c v r }
{
    chosen_from(r, c, v) ^ r
}

// Clears column c of every row by v, and then column d by w.
fn clear_columns(rows: &mut [u64], v: u64, c: u32, w: u64, d: u32)
    requires { (c < 64) × (v % 2 ^ c ≡ 0) × (d < 64) × (w % 2 ^ d ≡ 0) }
    ensures { rows.new ≡ map (clear d w) (map (clear c v) rows.old) }
{
    for r in rows.iter_mut() {
        *r = cleared(cleared(*r, v, c), w, d);
    }
}

// The column of the lowest 1 of a row.
pub fn lowest_one(v: u64) -> u32
    requires { 0 < v }
    ensures { (result < 64) × (v % 2 ^ result ≡ 0) × (v / 2 ^ result % 2 ≡ 1) }
{
    v.trailing_zeros()
}

// Are the rows independent? By elimination in place: each row, from the last, clears the column of its lowest 1 from the rows before it; two
// rows in one pass. From the last, since then every turn's part of the buffer begins at the same place. What is left of the rows is free.
pub fn independent(rows: &mut [u64]) -> bool
    ensures { ((result ≡ true) ↔ Independent rows.old) × Scratch rows.old rows.new }
{
    // A while: n counts the rows that are left, one or none of them behind the loop. A for by step_by(2) would have to count these again.
    let mut n = rows.len();
    while 1 < n {
        n -= 2;
        let v = rows[n + 1];
        if v == 0 {
            return false;
        }
        let c = lowest_one(v);
        let w = cleared(rows[n], v, c);
        if w == 0 {
            return false;
        }
        let d = lowest_one(w);
        clear_columns(&mut rows[..n], v, c, w, d);
    }
    n == 0 || 0 < rows[0]
}
