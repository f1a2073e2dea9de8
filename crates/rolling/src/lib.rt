// Residues of windows, rolled from one to the next, by two tables of 256 words: `reduce` for the byte that comes in, `outgoing` for the byte that
// goes out. The leading 1 of the fingerprint is left off: windows and pattern are equally long, and have it in common. These functions are for the
// project's own crates: what they require, every caller proves.
#![tactic(auto)]

ghost use Rattle.std.specs.Prelude.{◌≡◌, ◌*◌, ◌^◌, ◌≤◌, length};
ghost use Rattle.gf2.specs.Polynomials.{rem};
ghost use Rattle.gf2.specs.Moduli.{polynomial};
ghost use Rattle.lookups.specs.Groups.{ReducesByte};
ghost use Rattle.rolling.specs.Rolling.{window, residue};

mod text_windows;

use gf2::Modulus;
pub use text_windows::Windows;

// The residues of the first window and of the pattern, and t^(8m) for a pattern of m bytes.
#[derive(Clone, Copy)]
pub struct Start {
    pub first: u64,
    pub wanted: u64,
    pub shift: u64,
}

// Reads the first window and the pattern.
pub fn read_first(p: Modulus, reduce: &[u64], text: &[u8], pattern: &[u8]) -> Start
    requires { ReducesByte p reduce.now × (length pattern.now ≤ length text.now) }
    ensures { (result.first ≡ residue (polynomial p) (window (length pattern.now) text.now 0))
        × (result.wanted ≡ residue (polynomial p) pattern.now)
        × (result.shift ≡ rem (polynomial p) (2 ^ (8 * length pattern.now))) }
{
    let mut first: u64 = 0;
    let mut wanted: u64 = 0;
    let mut shift: u64 = 1;
    for i in 0..pattern.len() {
        first = lookups::feed_one(reduce, p, first, text[i]);
        wanted = lookups::feed_one(reduce, p, wanted, pattern[i]);
        shift = lookups::feed_one(reduce, p, shift, 0);
    }
    Start {
        first,
        wanted,
        shift,
    }
}
