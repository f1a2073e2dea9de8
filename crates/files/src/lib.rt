// Files, their fingerprints and their marks: the definitions are in specs/, their laws in proofs/; and the residues that feeding, joining and
// changing a page come to. A part comes as bytes and the used bits of the final one. These functions are for the project's own crates: what they
// require, every caller proves.
#![tactic(auto)]

ghost use Rattle.std.specs.Prelude.{◌≡◌, false, ◌+◌, ◌*◌, ◌^◌, ◌≤◌, ◌<◌, length, take};
ghost use Rattle.gf2.specs.Polynomials.{◌⊕◌, rem};
ghost use Rattle.gf2.specs.Moduli.{polynomial, Proper};
ghost use Rattle.files.specs.Files.{low_bits, bits, value_from, fingerprint, as_part, used_bits, part_bits, misused};
ghost use Rattle.files.specs.Ends.{whole_bytes, end_bits, counted_length};

use gf2::Modulus;

// A mark (document 01's term): the fingerprint of a file and its length in bits.
#[derive(Clone, Copy)]
pub struct Mark {
    pub fingerprint: u64,
    pub length: u64,
}

// The used bits of a final byte as a length counts them: outside 1 to 8 they count as 8.
fn used_bits(used: u32) -> u64
    ensures { (result ≡ used_bits used) × (result ≤ 8) }
{
    match used {
        1..=8 => u64::from(used),
        _ => 8,
    }
}

// The length of a part in bits, counted up to 2^36: more than 2^33 bytes are longer.
pub fn part_length(part: &[u8], used: u32) -> u64
    ensures { result ≡ counted_length (as_part part.now used) }
{
    match part.len() as u64 {
        0 => 0,
        n @ 1..=0x2_0000_0000 => 8 * (n - 1) + used_bits(used),
        _ => 0x10_0000_0000,
    }
}

// Does number 19 apply to a part?
pub fn is_misused(part: &[u8], used: u32) -> bool
    ensures { result ≡ misused (as_part part.now used) }
{
    if used < 1 || 8 < used {
        return true;
    }
    match part.last() {
        Some(last) => gf2::low_bits(u64::from(*last), 8 - used) != 0,
        None => used != 8,
    }
}

// How many bytes of a part are used whole: all, or all but the final one.
pub fn whole_bytes(part: &[u8], used: u32) -> usize
    ensures { (result ≡ whole_bytes (as_part part.now used)) × (result ≤ length part.now) }
{
    if used == 8 {
        part.len()
    } else {
        part.len().saturating_sub(1)
    }
}

// The n low bits of a byte behind a residue, the highest first.
fn feed_low(p: Modulus, f: u64, b: u8, n: u32) -> u64
    requires { Proper p × (f < 2 ^ p.degree) × (n ≤ 8) }
    ensures { result ≡ rem (polynomial p) (value_from f (low_bits n b)) }
{
    let mut x = f;
    for i in (0..n).rev() {
        let bit = (b >> i) % 2;
        x = gf2::step(p, x, u64::from(bit));
    }
    x
}

// A byte behind a residue, the high bit first.
fn feed_byte(p: Modulus, f: u64, b: u8) -> u64
    requires { Proper p × (f < 2 ^ p.degree) }
    ensures { result ≡ rem (polynomial p) (f * 256 + b) }
{
    feed_low(p, f, b, 8)
}

// The bytes of a part behind a residue.
pub fn feed_bytes(p: Modulus, f: u64, part: &[u8]) -> u64
    requires { Proper p × (f < 2 ^ p.degree) }
    ensures { result ≡ rem (polynomial p) (value_from f (bits part.now)) }
{
    let mut x = f;
    for b in part {
        x = feed_byte(p, x, *b);
    }
    x
}

// The used bits behind a part's whole bytes, fed to the residue of those: none, or the high bits of the final byte.
pub fn feed_end(p: Modulus, f: u64, part: &[u8], used: u32) -> u64
    requires { Proper p × (f < 2 ^ p.degree) × (misused (as_part part.now used) ≡ false) }
    ensures { result ≡ rem (polynomial p) (value_from f (end_bits (as_part part.now used))) }
{
    if used == 8 {
        return f;
    }
    let last = part[part.len() - 1];
    feed_low(p, f, last >> (8 - used), used)
}

// The residue of a mark that is turned: t^n is added, from the residue and the length in bits.
pub fn turned_residue(p: Modulus, f: u64, n: u64) -> u64
    requires { Proper p × (f < 2 ^ p.degree) }
    ensures { result ≡ rem (polynomial p) (f ⊕ 2 ^ n) }
{
    f ^ gf2::power_of_t(p, n)
}

// The residue of two files joined: F·t^b + G + s·t^b, from their residues and the second file's length in bits, s being the start of both.
pub fn joined_residue(p: Modulus, start: u64, f: u64, g: u64, b: u64) -> u64
    requires { Proper p × (start < 2) × (f < 2 ^ p.degree) × (g < 2 ^ p.degree) }
    ensures { result ≡ rem (polynomial p) (f * 2 ^ b ⊕ g ⊕ start * 2 ^ b) }
{
    with_zeros(p, f ^ start, b) ^ g
}

// The residue of a file with n zeros behind it, F·t^n, from the file's residue.
pub fn with_zeros(p: Modulus, f: u64, n: u64) -> u64
    requires { Proper p × (f < 2 ^ p.degree) }
    ensures { result ≡ rem (polynomial p) (f * 2 ^ n) }
{
    gf2::product(p, f, gf2::power_of_t(p, n))
}

// The residue of the difference of two lists of bytes, which are equally many, bit by bit.
pub fn difference(p: Modulus, old: &[u8], new: &[u8]) -> u64
    requires { Proper p × (length old.now ≡ length new.now) }
    ensures { result ≡ rem (polynomial p) (value_from 0 (bits old.now) ⊕ value_from 0 (bits new.now)) }
{
    let mut x: u64 = 0;
    for (a, b) in old.iter().zip(new) {
        x = feed_byte(p, x, a ^ b);
    }
    x
}

// The difference of the fingerprints of two pages of one length, where x is that of their whole bytes, without the leading 1 of either: the difference of
// the used bits comes in behind it.
pub fn difference_end(p: Modulus, x: u64, old: &[u8], new: &[u8], used: u32) -> u64
    requires { Proper p × (length old.now ≡ length new.now) × (misused (as_part old.now used) ≡ false) × (misused (as_part new.now used) ≡ false)
        × (x ≡ rem (polynomial p) (value_from 0 (bits (take (whole_bytes (as_part old.now used)) old.now))
        ⊕ value_from 0 (bits (take (whole_bytes (as_part old.now used)) new.now)))) }
    ensures { result ≡ fingerprint (polynomial p) (part_bits (as_part old.now used))
        ⊕ fingerprint (polynomial p) (part_bits (as_part new.now used)) }
{
    if used == 8 {
        return x;
    }
    let w = whole_bytes(old, used);
    feed_low(p, x, (old[w] ^ new[w]) >> (8 - used), used)
}

// The residue of a file in which a page was changed: the difference of the pages' fingerprints, times t^(bits after the page), is added.
pub fn replaced_residue(p: Modulus, f: u64, change: u64, after: u64) -> u64
    requires { Proper p × (f < 2 ^ p.degree) × (change < 2 ^ p.degree) }
    ensures { result ≡ rem (polynomial p) (f ⊕ change * 2 ^ after) }
{
    f ^ gf2::product(p, change, gf2::power_of_t(p, after))
}
