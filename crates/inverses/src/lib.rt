// The inverse modulo an irreducible polynomial, by Euclid's algorithm, and division by a power of t. These functions are for the project's own crates:
// what they require, every caller proves.
#![tactic(auto)]

ghost use Rattle.std.specs.Prelude.{◌≡◌, ◌/◌, ◌^◌, ◌≤◌, ◌<◌};
ghost use Rattle.gf2.specs.Polynomials.{◌⊗◌, rem, Irreducible};
ghost use Rattle.gf2.specs.Moduli.{polynomial, Proper};
ghost use Rattle.gf2.specs.Inverses.{inverse as inverseOf};
ghost use Rattle.inverses.specs.Euclid.{over_t, next};

use gf2::Modulus;

// Two products of what is to be inverted, a, modulo p: u·a = r and v·a = 2s + 1. The second is odd, so that its half s tells it: at first it is p
// itself, of which the half fits a word also at degree 64.
#[derive(Clone, Copy)]
pub struct Pairs {
    pub r: u64,
    pub u: u64,
    pub s: u64,
    pub v: u64,
}

// A residue divided by t, h being the inverse of t. No branch: the bit is data.
fn over_t(h: u64, f: u64) -> u64
    ensures { result ≡ over_t h f }
{
    (f / 2) ^ (h * (f % 2))
}

// One turn: r, or its sum with 2s + 1 where it is odd, is divided by t. The smaller one of two odd numbers stays as 2s + 1.
fn next(h: u64, x: Pairs) -> Pairs
    ensures { result ≡ next h x }
{
    let bit = x.r % 2;
    let half = x.r / 2;
    let r = half ^ (x.s * bit);
    let u = over_t(h, x.u ^ (x.v * bit));
    if bit == 1 && half < x.s {
        return Pairs {
            r,
            u,
            s: half,
            v: x.u,
        };
    }
    Pairs { r, u, ..x }
}

// The inverse of t, where p is odd: p without its lowest coefficient, divided by t.
fn inverse_of_t(p: Modulus) -> u64
    requires { Proper p }
    ensures { result ≡ polynomial p / 2 }
{
    let top: u64 = 1 << (p.degree - 1);
    p.low / 2 + top
}

// The inverse of a residue that is not 0.
pub fn inverse(p: Modulus, a: u64) -> u64
    requires { Proper p × (2 ≤ p.degree) × Irreducible (polynomial p) × (0 < a) × (a < 2 ^ p.degree) }
    ensures { result ≡ inverseOf (polynomial p) a }
{
    let h = inverse_of_t(p);
    let mut x = Pairs {
        r: a,
        u: 1,
        s: h,
        v: 0,
    };
    while 0 < x.s {
        x = next(h, x);
    }
    x.v
}

// A residue divided by t^n.
pub fn over_power_of_t(p: Modulus, f: u64, n: u64) -> u64
    requires { Proper p × (2 ≤ p.degree) × Irreducible (polynomial p) × (f < 2 ^ p.degree) }
    ensures { result ≡ rem (polynomial p) (f ⊗ inverseOf (polynomial p) (2 ^ n)) }
{
    let power = gf2::power_of_t(p, n);
    let inverted = inverse(p, power);
    gf2::product(p, f, inverted)
}
