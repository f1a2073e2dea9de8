// Multiplication of residues by one power of t, by a table of 2,048 words, and feeding eight bytes at a time by it. These functions are
// for the project's own crates: what they require, every caller proves.
#![tactic(auto)]

ghost use Rattle.std.specs.Prelude.{◌≡◌, ◌*◌, ◌%◌, ◌≤◌, ◌<◌, length, get_or};
ghost use Rattle.gf2.specs.Polynomials.{◌⊕◌};
ghost use Rattle.gf2.specs.Moduli.{polynomial, Proper};
ghost use Rattle.lookups.specs.Groups.{looked};
ghost use Rattle.shifts.specs.Shifts.{Shifts, FedEights};

use gf2::Modulus;

// The table for t^(8n), the shift by n bytes.
pub fn fill(words: &mut [u64], p: Modulus, n: u64)
    requires { Proper p × (n ≤ 4096) × (length words.old ≡ 2048) }
    ensures { Shifts (polynomial p) (8 * n) words.new }
{
    let x = gf2::power_of_t(p, 8 * n);
    multiples::fill_rows(words, 8, 8, p, x);
}

// The product, by the bytes of the residue.
fn times(words: &[u64], f: u64) -> u64
    requires { length words.now ≡ 2048 }
    ensures { result ≡ looked 8 words.now 8 0 f }
{
    let mut sum: u64 = 0;
    let mut rest = f;
    for j in 0..8 {
        sum ^= words[j * 256 + (rest % 256) as usize];
        rest /= 256;
    }
    sum
}

// A page mark joined behind a mark: F·t^(8n) + G + t^(8n), which is word 1.
pub fn join(words: &[u64], f: u64, g: u64) -> u64
    requires { length words.now ≡ 2048 }
    ensures { result ≡ looked 8 words.now 8 0 f ⊕ g ⊕ get_or words.now 1 0 }
{
    times(words, f) ^ g ^ words[1]
}

// Two parts of one length side by side, each in groups of eight bytes behind a leading 1, by the table for the shift by eight bytes under a
// key: the values are congruent to the residues, and may reach the key's degree. The words say all of the key that is needed.
pub fn feed_eights(words: &[u64], q: &[u8], r: &[u8]) -> (u64, u64)
    requires { (length words.now ≡ 2048) × (8 ≤ length q.now) × (length q.now % 8 ≡ 0) × (length r.now ≡ length q.now) }
    ensures { FedEights words.now q.now result.0 × FedEights words.now r.now result.1 }
{
    let mut a = words[1] ^ big_endian::eight_at(q, 0);
    let mut b = words[1] ^ big_endian::eight_at(r, 0);
    for i in (8..q.len()).step_by(8) {
        a = times(words, a) ^ big_endian::eight_at(q, i);
        b = times(words, b) ^ big_endian::eight_at(r, i);
    }
    (a, b)
}
