// Feeding with no table under a modulus whose coefficients below t^k are few and low: what would reach t^k comes back as a product with them
// that stays below t^k. Every stock key from degree 16 on is such. These functions are for the project's own crates: what they require, every
// caller proves.
#![tactic(auto)]

ghost use Rattle.std.specs.Prelude.{◌≡◌, ◌+◌, ◌*◌, ◌^◌, ◌<◌, length, IfSome};
ghost use Rattle.gf2.specs.Polynomials.{◌⊕◌, ◌⊗◌, rem};
ghost use Rattle.gf2.specs.Moduli.{polynomial, Proper};
ghost use Rattle.files.specs.Files.{bits, value_from};
ghost use Rattle.sparse.specs.Sparse.{Sparse};

use gf2::Modulus;

// The product with a polynomial below 2^8, by its bits. No branch: they are data.
fn times_bits(h: u64, low: u64) -> u64
    requires { (h < 2 ^ 56) × (low < 2 ^ 8) }
    ensures { result ≡ h ⊗ low }
{
    let mut sum: u64 = 0;
    for i in 0u32..8 {
        let bit = (low >> i) % 2;
        sum ^= (h << i) * bit;
    }
    sum
}

// The same. The coefficients of the house key, t^5 + t^2 + t + 1, are a constant, for which the compiler makes code of its own.
fn times(h: u64, low: u64) -> u64
    requires { (h < 2 ^ 56) × (low < 2 ^ 8) }
    ensures { result ≡ h ⊗ low }
{
    if low == house::WORD {
        return times_bits(h, house::WORD);
    }
    times_bits(h, low)
}

// n bytes behind a residue.
fn behind(p: Modulus, n: u32, f: u64, v: u64) -> u64
    requires { Sparse p n × (f < 2 ^ p.degree) × (v < 2 ^ (8 * n)) }
    ensures { result ≡ rem (polynomial p) (f * 2 ^ (8 * n) + v) }
{
    let cut = p.degree - 8 * n;
    let rest = gf2::low_bits(f, cut);
    times(f >> cut, p.low) ^ (rest << (8 * n)) ^ v
}

// Bytes behind a residue, one at a time.
fn feed_ones(p: Modulus, f: u64, part: &[u8]) -> u64
    requires { Sparse p 1 × (f < 2 ^ p.degree) }
    ensures { result ≡ rem (polynomial p) (value_from f (bits part.now)) }
{
    let mut x = f;
    for byte in part {
        x = behind(p, 1, x, u64::from(*byte));
    }
    x
}

// A part behind a residue: n bytes at a time, of the eight that one load brings, and the last ones one at a time.
pub fn fed(p: Modulus, n: u32, f: u64, part: &[u8]) -> u64
    requires { Sparse p n × (f < 2 ^ p.degree) }
    ensures { result ≡ rem (polynomial p) (value_from f (bits part.now)) }
{
    let bytes = n as usize;
    let spare = 64 - 8 * n;
    let mut x = f;
    let mut rest = part;
    while 8 <= rest.len() {
        let eight = big_endian::eight_at(rest, 0);
        x = behind(p, n, x, eight >> spare);
        rest = &rest[bytes..];
    }
    feed_ones(p, x, rest)
}

// The bytes of two parts of one length behind a residue, added to each other, one at a time.
fn difference_ones(p: Modulus, f: u64, old: &[u8], new: &[u8]) -> u64
    requires { Sparse p 1 × (f < 2 ^ p.degree) × (length old.now ≡ length new.now) }
    ensures { result ≡ rem (polynomial p) (value_from f (bits old.now) ⊕ value_from 0 (bits new.now)) }
{
    let mut x = f;
    for i in 0..old.len() {
        x = behind(p, 1, x, u64::from(old[i] ^ new[i]));
    }
    x
}

// The residue of the difference of two parts of one length, in one pass: n bytes of either at a time, as above.
pub fn difference(p: Modulus, n: u32, old: &[u8], new: &[u8]) -> u64
    requires { Sparse p n × (length old.now ≡ length new.now) }
    ensures { result ≡ rem (polynomial p) (value_from 0 (bits old.now) ⊕ value_from 0 (bits new.now)) }
{
    let width = n as usize;
    let spare = 64 - 8 * n;
    let mut x: u64 = 0;
    let mut olds = old;
    let mut news = new;
    while 8 <= olds.len() {
        let a = big_endian::eight_at(olds, 0);
        let b = big_endian::eight_at(news, 0);
        x = behind(p, n, x, (a ^ b) >> spare);
        olds = &olds[width..];
        news = &news[width..];
    }
    difference_ones(p, x, olds, news)
}

// How many bytes come in at a time, at most seven: none where the coefficients are not few and low enough for one.
pub fn bytes_at_once(p: Modulus) -> Option<u32>
    requires { Proper p }
    ensures { IfSome result (λ n. Sparse p n) }
{
    if p.low == 0 || 256 <= p.low {
        return None;
    }
    let n = (p.degree - gf2::degree(p.low)) / 8;
    if n == 0 { None } else { Some(n.min(7)) }
}
