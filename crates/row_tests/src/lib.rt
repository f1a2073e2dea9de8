// Are words rows of multiples, as `multiples` fills them? By doubling. These functions are for the project's own crates: what they require, every caller
// proves.
#![tactic(auto)]

ghost use Rattle.std.specs.Prelude.{◌≡◌, true, ◌↔◌, ◌+◌, ◌*◌, ◌^◌, ◌≤◌, ◌<◌, length};
ghost use Rattle.gf2.specs.Moduli.{polynomial, Proper};
ghost use Rattle.multiples.specs.Rows.{Multiples, Rows};

use gf2::Modulus;

// Whether word at + i is the residue of i times x, for each i below 2^width, by doubling.
fn first_holds(words: &[u64], at: usize, width: u32, p: Modulus, x: u64) -> bool
    requires { Proper p × (x < 2 ^ p.degree) × (at + 2 ^ width ≤ length words.now) }
    ensures { (result ≡ true) ↔ Multiples (polynomial p) x at (2 ^ width) words.now }
{
    let mut sum = words[at];
    let mut n: usize = 1;
    let mut y = x;
    for _ in 0..width {
        sum |= row_differences::differences(words, at, n, y);
        y = gf2::step(p, y, 0);
        n *= 2;
    }
    sum == 0
}

// The same: the first eighth by doubling, and the other seven by it in one pass. The word in the middle of the first eighth, shifted by one
// place, is the multiple that the second eighth begins with.
fn row_holds(words: &[u64], at: usize, width: u32, p: Modulus, x: u64) -> bool
    requires { Proper p × (x < 2 ^ p.degree) × (width < 64) × (at + 2 ^ width ≤ length words.now) }
    ensures { (result ≡ true) ↔ Multiples (polynomial p) x at (2 ^ width) words.now }
{
    if width < 4 {
        return first_holds(words, at, width, p, x);
    }
    let low = width - 3;
    if !first_holds(words, at, low, p, x) {
        return false;
    }
    let n = multiples::row_size(low);
    let y = gf2::step(p, words[at + n / 2], 0);
    let z = gf2::step(p, y, 0);
    let v = gf2::step(p, z, 0);
    row_differences::differences_of_eight(words, at, n, y, z, v) == 0
}

// Whether the words are such rows.
pub fn rows_hold(words: &[u64], width: u32, rows: usize, p: Modulus, x: u64) -> bool
    requires { Proper p × (x < 2 ^ p.degree) × (0 < width) × (width < 64) × (rows * 2 ^ width ≤ length words.now) }
    ensures { (result ≡ true) ↔ Rows width (polynomial p) x rows words.now }
{
    let size = multiples::row_size(width);
    let mut y = x;
    for j in 0..rows {
        let at = j * size;
        if !row_holds(words, at, width, p, y) {
            return false;
        }
        y = gf2::step(p, words[at + size / 2], 0);
    }
    true
}
