// Is a polynomial irreducible? By the independence of rows of squares. These functions are for the project's own crates: what they require, every
// caller proves.
#![tactic(auto)]

ghost use Rattle.std.specs.Prelude.{ℕ, ◌≡◌, true, not, ◌↔◌, ◌+◌, ◌-◌, ◌/◌, ◌^◌, ◌<◌, length, get_or};
ghost use Rattle.gf2.specs.Polynomials.{◌⊕◌};
ghost use Rattle.gf2.specs.Moduli.{polynomial, Proper};
ghost use Rattle.lists.specs.Lists.{list_from};
ghost use Rattle.lists.specs.Inner.{Scratch};
ghost use Rattle.acceptance.specs.Keys.{reducible};
ghost use Rattle.basis.specs.Rows.{Independent};
ghost use Rattle.irreducibility.specs.Squares.{square, even_root, odd_part, folded};

use gf2::Modulus;

// The squares of t^h, .. t^(k - 1) modulo the key, with h half of k, rounded up. That of t^(h - 1) needs no division.
fn square_rows(p: Modulus, rows: &mut [u64])
    requires { Proper p × (length rows.old ≡ p.degree / 2) }
    ensures { rows.new ≡ list_from (square (polynomial p)) (p.degree - p.degree / 2) (p.degree / 2) }
{
    let k = p.degree;
    let h = k - k / 2;
    let mut w: u64 = 1 << (2 * h - 2);
    for row in rows.iter_mut() {
        w = gf2::step(p, gf2::step(p, w, 0), 0);
        *row = w;
    }
}

// The coefficients at the odd places.
fn odd_part(x: u64) -> u64
    ensures { result ≡ odd_part x }
{
    x & 0xAAAAAAAAAAAAAAAA
}

// The coefficients at the even places, closed up.
fn even_root(x: u64) -> u64
    ensures { result ≡ even_root 32 x }
{
    let a = x & 0x5555555555555555;
    let b = (a ^ (a >> 1)) & 0x3333333333333333;
    let c = (b ^ (b >> 2)) & 0x0F0F0F0F0F0F0F0F;
    let d = (c ^ (c >> 4)) & 0x00FF00FF00FF00FF;
    let e = (d ^ (d >> 8)) & 0x0000FFFF0000FFFF;
    (e ^ (e >> 16)) & 0x00000000FFFFFFFF
}

// Every coefficient at an even place but 0 moved to half its place, until it stands at an odd one.
fn fold(x: u64) -> u64
    ensures { result ≡ folded 6 x }
{
    let mut rest = x;
    let mut sum: u64 = 0;
    for _ in 0..6u32 {
        sum ^= odd_part(rest);
        rest = even_root(rest);
    }
    sum ^ rest
}

// Are the rows independent, each put through a function of its place and value? What is left of them is free.
fn independent_values<F: Fn(usize, u64) -> u64>(rows: &mut [u64], value: F) -> bool
    requires { (i x : ℕ) → i < length rows.old → x < 2 ^ 64 → F.pre value i x }
    ensures { ((v : ℕ → ℕ → ℕ) → ((i x y : ℕ) → i < length rows.old → x < 2 ^ 64 → F.post value i x y → y ≡ v i x)
        → (result ≡ true) ↔ Independent (list_from (λ i. v i (get_or rows.old i 0)) 0 (length rows.old)))
        × Scratch rows.old rows.new }
{
    for (i, row) in rows.iter_mut().enumerate() {
        *row = value(i, *row);
    }
    basis::independent(rows)
}

// Irreducible, that is: squaring modulo the polynomial takes no residue of at most two thirds of its degree to 0 but 0, and keeps no residue
// but 0 and 1.
pub fn irreducible(p: Modulus) -> bool
    requires { Proper p }
    ensures { result ≡ not (reducible (polynomial p)) }
{
    let k = p.degree as usize;
    let n = k / 2;
    let h = k - n;
    let thirds = 2 * k / 3 + 1 - h;
    let mut squares: [u64; 32] = [0; 32];
    square_rows(p, &mut squares[..n]);
    let mut rows = squares;
    // Independent modulo all squares, and, each less its power of t, from t^h on, modulo all l² ⊕ l.
    independent_values(&mut rows[..thirds], |_, row| odd_part(row))
        && independent_values(&mut squares[..n], |i, row| fold(row ^ (1 << (h + i))))
}
