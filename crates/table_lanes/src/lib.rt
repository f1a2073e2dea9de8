// Feeding a long part by a table, in four lanes side by side, and joining them by a power of t. These functions are for the project's own crates:
// what they require, every caller proves.
#![tactic(auto)]

ghost use Rattle.std.specs.Prelude.{◌≡◌, [], ◌∷◌, ◌+◌, ◌*◌, ◌%◌, ◌^◌, ◌≤◌, ◌<◌, length, get_or};
ghost use Rattle.gf2.specs.Polynomials.{◌⊕◌, ◌⊗◌, rem};
ghost use Rattle.gf2.specs.Moduli.{polynomial, Proper};
ghost use Rattle.files.specs.Files.{bits, value_from};
ghost use Rattle.table_lanes.specs.Lanes.{EachLane, FourMore, FedLane, TwoRows, all_behind};

use gf2::Modulus;
use lookups::KeyTable;

// Four bytes more in each of four lanes of n bytes: four chains of look-ups that do not wait for each other. The branch stands once before the four
// steps, so that the compiler takes it out of the loop, and the bytes are read before it, so that it knows four of them as one load.
fn feed_turn(table: KeyTable<'_>, x: &mut [u64; 4], part: &[u8], n: usize, i: usize)
    requires { (i + 4 ≤ n) × (4 * n ≤ length part.now) }
    ensures { EachLane (λ j. FourMore table.entry.p part.now (i + j * n) (get_or x.old j 0) (get_or x.new j 0)) }
{
    let v = [
        big_endian::four_at(part, i),
        big_endian::four_at(part, i + n),
        big_endian::four_at(part, i + 2 * n),
        big_endian::four_at(part, i + 3 * n),
    ];
    if table.p.degree < 32 {
        for (j, y) in x.iter_mut().enumerate() {
            *y = table.append_low(*y, v[j]);
        }
    } else {
        for (j, y) in x.iter_mut().enumerate() {
            *y = table.append_high(*y, v[j]);
        }
    }
}

// Of each lane the coefficients below t^k.
fn clear(p: Modulus, x: &mut [u64; 4])
    requires { Proper p }
    ensures { EachLane (λ j. get_or x.new j 0 ≡ get_or x.old j 0 % 2 ^ p.degree) }
{
    for y in x.iter_mut() {
        *y = lookups::below(p, *y);
    }
}

// Four lanes of n bytes side by side, the first behind f, the others behind nothing.
fn feed_lanes(table: KeyTable<'_>, f: u64, part: &[u8], n: usize) -> [u64; 4]
    requires { (f < 2 ^ table.p.degree) × (n % 4 ≡ 0) × (4 * n ≤ length part.now) }
    ensures { EachLane (λ j. FedLane table.entry.p (get_or (f ∷ []) j 0) part.now (j * n) n (get_or result j 0)) }
{
    let mut x = [f, 0, 0, 0];
    for i in (0..n).step_by(4) {
        feed_turn(table, &mut x, part, n, i);
    }
    clear(table.p, &mut x);
    x
}

// x·t + y: a lane with the residue y behind what has the residue x, where t is the power of t by the bits of the lane.
pub fn times_plus(p: Modulus, x: u64, t: u64, y: u64) -> u64
    requires { Proper p × (x < 2 ^ p.degree) × (t < 2 ^ p.degree) }
    ensures { result ≡ rem (polynomial p) (x ⊗ t) ⊕ y }
{
    gf2::product(p, x, t) ^ y
}

// The square of a residue: the squares of its halves, the low one reduced four bytes at a time behind the high one, which is a residue already
// since the degree is at most 64.
fn square(table: KeyTable<'_>, x: u64) -> u64
    requires { x < 2 ^ table.p.degree }
    ensures { result ≡ rem (polynomial table.entry.p) (x ⊗ x) }
{
    let high = gf2::square(x / 4294967296);
    let low = gf2::square(x % 4294967296);
    let f = table.feed_four(high, low / 4294967296);
    table.feed_four(f, low % 4294967296)
}

// The power t^(32n), by the bits of n from the highest: a square for each, and four bytes of zeros where the bit is one.
fn power(table: KeyTable<'_>, n: u64) -> u64
    requires { 0 < n }
    ensures { result ≡ rem (polynomial table.entry.p) (2 ^ (32 * n)) }
{
    let mut x = table.feed_four(1, 0);
    for i in (0..gf2::degree(n)).rev() {
        x = square(table, x);
        if (n >> i) % 2 == 1 {
            x = table.feed_four(x, 0);
        }
    }
    x
}

// The product of x and the residue whose multiples the rows have, which is their word 1: by the bytes of x from the highest.
fn times(table: KeyTable<'_>, rows: &[u64], x: u64) -> u64
    requires { TwoRows table.p rows.now }
    ensures { result ≡ rem (polynomial table.entry.p) (x ⊗ get_or rows.now 1 0) }
{
    let mut sum: u64 = 0;
    for byte in x.to_be_bytes() {
        let b = byte as usize;
        sum = table.feed_byte(sum, 0) ^ rows[b % 16] ^ rows[16 + b / 16];
    }
    sum
}

// Four lanes joined, one behind the other, where t is the power of t by the bits of a lane.
fn join(table: KeyTable<'_>, t: u64, x: [u64; 4]) -> u64
    requires { t < 2 ^ table.p.degree }
    ensures { result ≡ all_behind table.entry.p t x }
{
    let [a, b, c, d] = x;
    let mut rows: [u64; 32] = [0; 32];
    multiples::fill_rows(&mut rows, 4, 2, table.p, t);
    let ab = times(table, &rows, a) ^ b;
    let abc = times(table, &rows, ab) ^ c;
    times(table, &rows, abc) ^ d
}

// A long part: four lanes of n times four bytes, joined by t^(32n), and what is left behind them.
fn feed_long(table: KeyTable<'_>, f: u64, part: &[u8]) -> u64
    requires { (f < 2 ^ table.p.degree) × (16 ≤ length part.now) }
    ensures { result ≡ rem (polynomial table.entry.p) (value_from f (bits part.now)) }
{
    let n = part.len() / 16;
    let lane = 4 * n;
    let four = 4 * lane;
    let x = feed_lanes(table, f, part, lane);
    let t = power(table, n as u64);
    let abcd = join(table, t, x);
    table.feed_lane(abcd, &part[four..])
}

// A part behind a residue. Four lanes pay off from about 300 bytes on: they cost the power of t and three products, about 150 ns for a part of
// 1,024 bytes, and feed a byte in two fifths of the time that one lane takes (measured under degrees 61, 31 and 16).
pub fn fed(table: KeyTable<'_>, f: u64, part: &[u8]) -> u64
    requires { f < 2 ^ table.p.degree }
    ensures { result ≡ rem (polynomial table.entry.p) (value_from f (bits part.now)) }
{
    if part.len() < 320 {
        return table.feed_lane(f, part);
    }
    feed_long(table, f, part)
}
