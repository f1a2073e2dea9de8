// Polynomials over the field of two elements, as numbers: bit i is the coefficient of t^i. The definitions are in specs/, their laws in proofs/.
// These functions are for the project's own crates: what they require, every caller proves.
#![tactic(auto)]

ghost use Rattle.std.specs.Prelude.{◌≡◌, not, ◌+◌, ◌*◌, ◌/◌, ◌%◌, ◌^◌, ◌≤◌, ◌<◌, leb};
ghost use Rattle.gf2.specs.Polynomials.{◌⊗◌, degree, rem};
ghost use Rattle.gf2.specs.Moduli.{polynomial, Proper};

// A modulus: its degree, from 1 to 64, and the coefficients below t^degree, so that degree 64 fits a word.
#[derive(Clone, Copy)]
pub struct Modulus {
    pub degree: u32,
    pub low: u64,
}

// The degree of a nonzero polynomial: the place of its highest one bit, by the count of leading zeros, as document 01 has it.
pub fn degree(p: u64) -> u32
    requires { 0 < p }
    ensures { result ≡ degree p }
{
    63 - u64::leading_zeros(p)
}

// The coefficients below t^n.
pub fn low_bits(x: u64, n: u32) -> u64
    requires { n < 64 }
    ensures { result ≡ x % 2 ^ n }
{
    let power: u64 = 1 << n;
    x % power
}

// Whether a number is a residue: of lower degree than the modulus.
pub fn is_residue(p: Modulus, f: u64) -> bool
    requires { Proper p }
    ensures { result ≡ not (leb (2 ^ p.degree) f) }
{
    f >> (p.degree - 1) < 2
}

// One bit behind a residue. The coefficient that would reach t^k falls out, and t^k is the coefficients below it. No branch: the bits are data.
pub fn step(p: Modulus, f: u64, bit: u64) -> u64
    requires { Proper p × (f < 2 ^ p.degree) × (bit < 2) }
    ensures { result ≡ rem (polynomial p) (f * 2 + bit) }
{
    let cut = p.degree - 1;
    let top = (f >> cut) % 2;
    let rest = low_bits(f, cut);
    let lower = p.low * top;
    (rest * 2 + bit) ^ lower
}

// The product of two residues, by the bits of b from the lowest.
pub fn product(p: Modulus, a: u64, b: u64) -> u64
    requires { Proper p × (a < 2 ^ p.degree) × (b < 2 ^ p.degree) }
    ensures { result ≡ rem (polynomial p) (a ⊗ b) }
{
    let mut sum: u64 = 0;
    let mut shifted = a;
    for i in 0..p.degree {
        let bit = (b >> i) % 2;
        sum ^= shifted * bit;
        shifted = step(p, shifted, 0);
    }
    sum
}

// The square of a polynomial below t^32: every coefficient moves to twice its place.
pub fn square(x: u64) -> u64
    requires { x < 2 ^ 32 }
    ensures { result ≡ x ⊗ x }
{
    let a = (x ^ (x * 65536)) & 0x0000FFFF0000FFFF;
    let b = (a ^ (a * 256)) & 0x00FF00FF00FF00FF;
    let c = (b ^ (b * 16)) & 0x0F0F0F0F0F0F0F0F;
    let d = (c ^ (c * 4)) & 0x3333333333333333;
    (d ^ (d * 2)) & 0x5555555555555555
}

// How many of the low bits of n to leave, so that the bits above them name a power of t below t^k.
fn low_places(k: u32, n: u64) -> u32
    requires { 0 < k }
    ensures { (result ≤ 64) × (n / 2 ^ result < k) }
{
    for i in (0..64 - n.leading_zeros()).rev() {
        if k as u64 <= n >> i {
            return i + 1;
        }
    }
    0
}

// The power of t that the bits of n from place i on name: no division is needed yet.
fn first_power(n: u64, i: u32) -> u64
    requires { (i ≤ 64) × (n / 2 ^ i < 64) }
    ensures { result ≡ 2 ^ (n / 2 ^ i) }
{
    if i == 64 {
        return 1;
    }
    1 << (n >> i)
}

// The power t^n, by the bits of n from the highest: a square for each, and a step where the bit is one. It begins with the bits that name a power
// below t^k.
pub fn power_of_t(p: Modulus, n: u64) -> u64
    requires { Proper p }
    ensures { result ≡ rem (polynomial p) (2 ^ n) }
{
    let places = low_places(p.degree, n);
    let mut x = first_power(n, places);
    for i in (0..places).rev() {
        x = product(p, x, x);
        if (n >> i) % 2 == 1 {
            x = step(p, x, 0);
        }
    }
    x
}
