// The windows of a text, and their residues.

ghost use Rattle.rolling.specs.Tables.{Ready};

use gf2::Modulus;

// The windows of a text that are as long as a pattern, with what their residues are rolled by: the modulus, the pattern's length and residue, and
// the two tables.
#[derive(Clone, Copy)]
pub struct Windows<'a> {
    pub modulus: Modulus,
    pub m: usize,
    pub wanted: u64,
    pub text: &'a [u8],
    pub reduce: &'a [u64],
    pub outgoing: &'a [u64; 256],
    pub ghost ready: { Ready modulus m reduce.now outgoing.now },
}

impl Windows<'_> {
    ghost use Rattle.std.specs.Prelude.{◌≡◌, ◌+◌, ◌<◌, ◌≤◌, length, get_or};
    ghost use Rattle.rolling.specs.Rolling.{ResidueOf, ResidueAt};

    // The residue of one byte more than the n bytes from the place i on, whose residue is x.
    fn longer(self, i: usize, n: usize, x: u64) -> u64
        requires { (i + n < length self.text.now) × ResidueOf self n i x }
        ensures { ResidueOf self.entry (n + 1) i result }
    {
        lookups::feed_one(self.reduce, self.modulus, x, self.text[i + n])
    }

    // The residue of the window at i + 1 from that of the window at i: a byte comes in behind, and the first one, times t^(8m), goes out.
    pub fn roll(self, i: usize, g: u64) -> u64
        requires { (i + self.m < length self.text.now) × ResidueAt self i g }
        ensures { ResidueAt self.entry (i + 1) result }
    {
        let longer = self.longer(i, self.m, g);
        let first = self.text[i] as usize;
        let gone = self.outgoing[first];
        longer ^ gone
    }

    // Four lanes of windows, 256 places apart: the residue of the first window is g, the other three are read.
    pub fn start_lanes(self, from: usize, g: u64) -> [u64; 4]
        requires { (from + 768 + self.m ≤ length self.text.now) × ResidueAt self from g }
        ensures { ResidueAt self.entry from (get_or result 0 0)
            × ResidueAt self.entry (from + 256) (get_or result 1 0)
            × ResidueAt self.entry (from + 512) (get_or result 2 0)
            × ResidueAt self.entry (from + 768) (get_or result 3 0) }
    {
        let mut b: u64 = 0;
        let mut c: u64 = 0;
        let mut d: u64 = 0;
        for j in 0..self.m {
            b = self.longer(from + 256, j, b);
            c = self.longer(from + 512, j, c);
            d = self.longer(from + 768, j, d);
        }
        [g, b, c, d]
    }
}
