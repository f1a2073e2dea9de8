// Numbers in digits, and texts put into a lent buffer. These functions are for the project's own crates: what they require, every caller proves.
#![tactic(auto)]

ghost use Rattle.std.specs.Prelude.{◌≡◌, false, ◌≤◌, length, take, flat_map};
ghost use Rattle.acceptance.specs.Keys.{polynomial_of, outside};
ghost use Rattle.numerals.specs.Numerals.{numeral};
ghost use Rattle.numerals.specs.Buffers.{PutInFront};

use acceptance::Key;

// Digits at the front of an array that has room for the most.
#[derive(Clone, Copy)]
pub struct Digits<const N: usize> {
    pub bytes: [u8; N],
    pub count: usize,
    pub ghost in_bounds: { count ≤ N },
}

impl<const N: usize> Digits<N> {
    pub fn text(&self) -> &[u8]
        ensures { result.now ≡ take self.now.count self.now.bytes }
    {
        &self.bytes[..self.count]
    }
}

// A number in decimal.
pub fn decimal(n: u64) -> Digits<20>
    ensures { take result.count result.bytes ≡ numeral 10 n }
{
    let mut bytes = [0u8; 20];
    let count = io::decimal(n, &mut bytes);
    Digits { bytes, count }
}

// A number in hexadecimal.
pub fn hexadecimal(n: u64) -> Digits<16>
    ensures { take result.count result.bytes ≡ numeral 16 n }
{
    let mut bytes = [0u8; 16];
    let count = io::hex(n, 1, &mut bytes);
    Digits { bytes, count }
}

// A key's polynomial in hexadecimal. Of degree 64 it is the digit 1, and all sixteen of the word.
pub fn polynomial(x: Key) -> Digits<17>
    requires { outside x ≡ false }
    ensures { take result.count result.bytes ≡ numeral 16 (polynomial_of x) }
{
    let mut bytes = [b'1'; 17];
    if x.degree == 64 {
        let mut word = [0u8; 16];
        io::hex(x.word, 16, &mut word);
        bytes[1..].copy_from_slice(&word);
        return Digits { bytes, count: 17 };
    }
    let below = hexadecimal((1 << x.degree) + x.word);
    bytes[..16].copy_from_slice(&below.bytes);
    Digits {
        bytes,
        count: below.count,
    }
}

// Puts texts at the front of a buffer, one behind the other, and answers how many bytes they have.
pub fn put(out: &mut [u8], texts: &[&[u8]]) -> usize
    requires { length (flat_map (λ text. text.now) texts.now) ≤ length out.old }
    ensures { PutInFront out.old out.new result (flat_map (λ text. text.now) texts.now) }
{
    let mut count = 0;
    for text in texts {
        let next = count + text.len();
        out[count..next].copy_from_slice(text);
        count = next;
    }
    count
}
