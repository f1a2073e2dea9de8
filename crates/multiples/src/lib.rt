// Rows of multiples: the residues of i·x modulo a polynomial, for i from 0 to 2^width - 1, in consecutive words, and the same of x·t^width,
// x·t^(2·width) and so on in the rows behind. A row is filled by doubling, and so it is tested (`row_tests`). These functions are for the
// project's own crates: what they require, every caller proves.
#![tactic(auto)]

ghost use Rattle.std.specs.Prelude.{◌≡◌, ◌+◌, ◌*◌, ◌^◌, ◌≤◌, ◌<◌, length};
ghost use Rattle.gf2.specs.Moduli.{polynomial, Proper};
ghost use Rattle.multiples.specs.Rows.{Multiples, Rows, Shifted, SameBefore, SameFrom};

use gf2::Modulus;

// The n words from place `at` on, each with y added, go behind them. The other words stay.
fn double(words: &mut [u64], at: usize, n: usize, y: u64)
    requires { at + n + n ≤ length words.old }
    ensures { Shifted at (at + n) n y words.old words.new
        × SameBefore (at + n) words.old words.new
        × SameFrom (at + n + n) words.old words.new }
{
    let next = at + n;
    for i in 0..n {
        words[next + i] = words[at + i] ^ y;
    }
}

// A row: word at + i becomes the residue of i times x, for each i below 2^width. The other words stay.
pub fn fill_row(words: &mut [u64], at: usize, width: u32, p: Modulus, x: u64)
    requires { Proper p × (x < 2 ^ p.degree) × (at + 2 ^ width ≤ length words.old) }
    ensures { Multiples (polynomial p) x at (2 ^ width) words.new
        × SameBefore at words.old words.new
        × SameFrom (at + 2 ^ width) words.old words.new }
{
    words[at] = 0;
    let mut n: usize = 1;
    let mut y = x;
    for _ in 0..width {
        double(words, at, n, y);
        y = gf2::step(p, y, 0);
        n *= 2;
    }
}

pub fn row_size(width: u32) -> usize
    requires { width < 64 }
    ensures { result ≡ 2 ^ width }
{
    1 << width
}

// Rows one behind the other, each with the multiples of t^width times the start of the row before it: the start of the next row is the word
// in the middle of this one, shifted by one place. The words behind the rows stay.
pub fn fill_rows(words: &mut [u64], width: u32, rows: usize, p: Modulus, x: u64)
    requires { Proper p × (x < 2 ^ p.degree) × (0 < width) × (width < 64) × (rows * 2 ^ width ≤ length words.old) }
    ensures { Rows width (polynomial p) x rows words.new
        × SameFrom (rows * 2 ^ width) words.old words.new }
{
    let size = row_size(width);
    let mut y = x;
    for j in 0..rows {
        let at = j * size;
        fill_row(words, at, width, p, y);
        y = gf2::step(p, words[at + size / 2], 0);
    }
}
