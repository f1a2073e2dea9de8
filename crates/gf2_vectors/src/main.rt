// Readings of document 01 that the arithmetic can express, printed and compared with their figures: fingerprints under key 0x11B fed bit by
// bit behind the 1, table words of that key as products, and 0x1071F as a product. Key 0x11B is of degree 8, with the low word 0x1B. Then
// the step at its edges, whose figures tools/test-step compares with long division.
#![tactic(auto)]

ghost use Rattle.std.specs.Prelude.{◌^◌, ◌≤◌, ◌<◌};
ghost use Rattle.gf2.specs.Moduli.{Proper};

use gf2::Modulus;
use std::io;
use std::io::Print;

// The key 0x11B.
const KEY: Modulus = Modulus {
    degree: 8,
    low: 0x1B,
};

// t^64 + t^4 + t^3 + t + 1, of which the product of two keys of degree 8 is a residue.
const WIDE: Modulus = Modulus {
    degree: 64,
    low: 0x1B,
};

// One bit behind a residue.
fn step(f: u64, bit: u64) -> u64
    requires { (f < 256) × (bit < 2) }
    ensures { result < 256 }
{
    gf2::step(KEY, f, bit)
}

// The eight bits of a byte, the high bit first.
fn fed(f: u64, byte: u64) -> u64
    requires { (f < 256) × (byte < 256) }
    ensures { result < 256 }
{
    let mut x = f;
    for i in (0..8u32).rev() {
        x = step(x, (byte >> i) % 2);
    }
    x
}

// Word 256·j + i of the key's table: i·t^(8 + 8j).
fn word(j: u64, i: u64) -> u64
    requires { (j < 4) × (i < 256) }
    ensures { result < 256 }
{
    let power = gf2::power_of_t(KEY, 8 + 8 * j);
    gf2::product(KEY, i, power)
}

fn show(rt: &impl Print, what: &[u8], x: u64) -> io::Result<()> {
    rt.write_all(what)?;
    println!(rt; "{x:02x}")
}

// A number behind a space.
fn show_word(rt: &impl Print, x: u64) -> io::Result<()> {
    print!(rt; " {x:x}")
}

// The step behind a residue, with the bit 0 and with the bit 1: a line with the degree, the coefficients below, the residue and both results.
fn show_steps(rt: &impl Print, p: Modulus, f: u64) -> io::Result<()>
    requires { Proper p × (f < 2 ^ p.degree) }
{
    print!(rt; "step {}", p.degree)?;
    show_word(rt, p.low)?;
    show_word(rt, f)?;
    print!(rt; ":")?;
    show_word(rt, gf2::step(p, f, 0))?;
    show_word(rt, gf2::step(p, f, 1))?;
    println!(rt)
}

// The same behind the largest residue from which a 0 falls out, and behind the smallest and the largest from which a 1 does.
fn show_residues(rt: &impl Print, degree: u32, low: u64, ones: u64) -> io::Result<()>
    requires { (0 < degree) × (degree ≤ 64) × (low < 2 ^ degree) × (ones < 2 ^ degree) }
{
    let p = Modulus { degree, low };
    show_steps(rt, p, ones / 2)?;
    show_steps(rt, p, ones - ones / 2)?;
    show_steps(rt, p, ones)
}

// The same under the degree with no coefficient below, with the last alone, and with all.
fn show_edges(rt: &impl Print, degree: u32) -> io::Result<()>
    requires { (0 < degree) × (degree ≤ 64) }
{
    let ones: u64 = 0xFFFFFFFFFFFFFFFF >> (64 - degree);
    show_residues(rt, degree, 0, ones)?;
    show_residues(rt, degree, 1, ones)?;
    show_residues(rt, degree, ones, ones)
}

fn main(rt: HostRuntime) -> io::Result<()> {
    show(&rt, b"empty file: ", 1)?;
    show(&rt, b"file 00: ", fed(1, 0x00))?;
    show(&rt, b"file 1b: ", fed(1, 0x1B))?;
    show(&rt, b"file 41: ", fed(1, 0x41))?;
    show(&rt, b"file 42: ", fed(1, 0x42))?;
    let first = fed(1, 0x41);
    show(&rt, b"file 41 42: ", fed(first, 0x42))?;
    let zero = fed(1, 0x00);
    show(&rt, b"file 00 00: ", fed(zero, 0x00))?;
    let one = fed(1, 0x01);
    show(&rt, b"file 01 1b: ", fed(one, 0x1B))?;
    show(&rt, b"word 1: ", word(0, 1))?;
    show(&rt, b"word 2: ", word(0, 2))?;
    show(&rt, b"word 128: ", word(0, 128))?;
    show(&rt, b"word 257: ", word(1, 1))?;
    show(&rt, b"11b times 11d: ", gf2::product(WIDE, 0x11B, 0x11D))?;
    show(&rt, b"degree of 1071f: ", gf2::degree(0x1071F) as u64)?;
    for degree in [1, 2, 8, 31, 32, 33, 61, 63, 64] {
        show_edges(&rt, degree)?;
    }
    Ok(())
}
