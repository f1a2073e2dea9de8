// The table of a modulus, and feeding by it, one byte or four at a time. These functions are for the project's own crates: what they require, every
// caller proves.
#![tactic(auto)]

ghost use Rattle.std.specs.Prelude.{◌≡◌, ◌+◌, ◌*◌, ◌%◌, ◌^◌, ◌≤◌, ◌<◌, length, not};
ghost use Rattle.gf2.specs.Polynomials.{◌⊕◌, rem};
ghost use Rattle.gf2.specs.Moduli.{polynomial, Proper};
ghost use Rattle.files.specs.Files.{bits, value_from};
ghost use Rattle.lookups.specs.Rule.{word, differs};
ghost use Rattle.lookups.specs.Groups.{Table, TableOf, looked, ReducesByte, Appended};

use gf2::Modulus;

// The table of a modulus, which is four rows of multiples: t^k is the coefficients below it.
pub fn fill_table(words: &mut [u64], p: Modulus)
    requires { Proper p × (length words.old ≡ 1024) }
    ensures { Table (polynomial p) words.new }
{
    multiples::fill_rows(words, 8, 4, p, p.low);
}

// Whether the words are the table of a modulus.
pub fn table_holds(words: &[u64], p: Modulus) -> bool
    requires { Proper p × (length words.now ≡ 1024) }
    ensures { result ≡ not (differs (word 8 (polynomial p)) 0 words.now) }
{
    row_tests::rows_hold(words, 8, 4, p, p.low)
}

// The coefficients below t^k.
pub fn below(p: Modulus, x: u64) -> u64
    requires { Proper p }
    ensures { result ≡ x % 2 ^ p.degree }
{
    let above = 64 - p.degree;
    (x << above) >> above
}

// One byte behind a residue, by the first row alone.
pub fn feed_one(words: &[u64], p: Modulus, f: u64, b: u8) -> u64
    requires { ReducesByte p words.now × (f < 2 ^ p.degree) }
    ensures { result ≡ rem (polynomial p) (f * 2 ^ 8 + b) }
{
    let cut = p.degree - 8;
    let rest = gf2::low_bits(f, cut);
    let top = (f >> cut) as usize;
    (rest * 256 + u64::from(b)) ^ words[top]
}

// The table of a modulus, lent.
#[derive(Clone, Copy)]
pub struct KeyTable<'a> {
    pub words: &'a [u64],
    pub p: Modulus,
    pub ghost holds: { TableOf p words.now },
}

impl KeyTable<'_> {
    // The words of two bytes of h, the low one looked up in the given row, added up.
    fn look_two(self, row: usize, h: u64) -> u64
        requires { row + 2 ≤ 4 }
        ensures { result ≡ looked 8 self.entry.words.now 2 row h }
    {
        let at = row * 256;
        let a = (h % 256) as usize;
        let b = (h / 256 % 256) as usize;
        self.words[at + a] ^ self.words[at + 256 + b]
    }

    // The words of the four bytes of `above`, added to `below`.
    fn look_up(self, below: u64, above: u64) -> u64
        ensures { result ≡ below ⊕ looked 8 self.entry.words.now 4 0 above }
    {
        below ^ self.look_two(0, above) ^ self.look_two(2, above / 65536)
    }

    // Four bytes behind a residue, where the degree is below 32: some of the new bits reach t^k themselves. Of x the coefficients below t^k are
    // the residue; those above are left over from the step before and count for nothing, here as in the result: so no step has to clear them.
    pub fn append_low(self, x: u64, v: u32) -> u64
        requires { self.p.degree < 32 }
        ensures { Appended self.entry.p x v result }
    {
        let y = x % 4294967296 * 4294967296 + u64::from(v);
        self.look_up(y, y >> self.p.degree)
    }

    // The same where the degree is at least 32: what reaches t^k is known before the new bits are.
    pub fn append_high(self, x: u64, v: u32) -> u64
        requires { 32 ≤ self.p.degree }
        ensures { Appended self.entry.p x v result }
    {
        self.look_up(
            x % 4294967296 * 4294967296 + u64::from(v),
            x >> (self.p.degree - 32),
        )
    }

    // The same for every degree. In a loop of one lane the compiler takes the branch, which is on the degree alone, out of it.
    pub fn append(self, x: u64, v: u32) -> u64
        ensures { Appended self.entry.p x v result }
    {
        if self.p.degree < 32 {
            return self.append_low(x, v);
        }
        self.append_high(x, v)
    }

    // Four bytes behind a residue, cleared.
    pub fn feed_four(self, f: u64, v: u64) -> u64
        requires { (f < 2 ^ self.p.degree) × (v < 2 ^ 32) }
        ensures { result ≡ rem (polynomial self.entry.p) (f * 2 ^ 32 + v) }
    {
        below(self.p, self.append(f, v as u32))
    }

    // One byte behind a residue.
    pub fn feed_byte(self, f: u64, b: u8) -> u64
        requires { f < 2 ^ self.p.degree }
        ensures { result ≡ rem (polynomial self.entry.p) (f * 2 ^ 8 + b) }
    {
        feed_one(self.words, self.p, f, b)
    }

    // The residue of a number of 64 bits: its last byte, or its last four, behind the bytes in front, which are a residue already where the
    // degree is large enough.
    pub fn residue(self, x: u64) -> u64
        ensures { result ≡ rem (polynomial self.entry.p) x }
    {
        let k = self.p.degree;
        if 56 <= k {
            return self.feed_byte(x / 256, (x % 256) as u8);
        }
        let high = x / 4294967296;
        let rest = x % 4294967296;
        if 32 <= k {
            return self.feed_four(high, rest);
        }
        let f = self.feed_four(0, high);
        self.feed_four(f, rest)
    }

    // Bytes one at a time.
    fn feed_tail(self, f: u64, tail: &[u8]) -> u64
        requires { f < 2 ^ self.p.degree }
        ensures { result ≡ rem (polynomial self.entry.p) (value_from f (bits tail.now)) }
    {
        let mut x = f;
        for b in tail {
            x = self.feed_byte(x, *b);
        }
        x
    }

    // One lane: four bytes at a time, and the last ones one at a time.
    pub fn feed_lane(self, f: u64, part: &[u8]) -> u64
        requires { f < 2 ^ self.p.degree }
        ensures { result ≡ rem (polynomial self.entry.p) (value_from f (bits part.now)) }
    {
        let mut x = f;
        let (groups, tail) = part.as_chunks::<4>();
        for group in groups {
            x = self.append(x, u32::from_be_bytes(*group));
        }
        self.feed_tail(below(self.p, x), tail)
    }
}
