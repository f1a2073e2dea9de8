// Feeding by folding (crate `fold_blocks`) under the house key, with no table: the words that are left of a long part are folded again by shorter
// ones, and what is left of those comes in seven bytes at a time. These functions are for the project's own crates: what they require, every caller
// proves.
#![tactic(auto)]

ghost use Rattle.std.specs.Prelude.{◌≡◌, ◌+◌, ◌*◌, ◌^◌, ◌≤◌, ◌<◌, length, take, drop, replicate};
ghost use Rattle.gf2.specs.Polynomials.{◌⊕◌, rem};
ghost use Rattle.files.specs.Files.{bits, value_from};
ghost use Rattle.house.specs.House.{house_key};
ghost use Rattle.fold_blocks.specs.Folds.{exponents, front, folded, Word};

use gf2::Modulus;

// A short part behind a residue: seven bytes at a time.
fn feed_sevens(f: u64, part: &[u8]) -> u64
    requires { f < 2 ^ 61 }
    ensures { result ≡ rem house_key (value_from f (bits part.now)) }
{
    let p = Modulus {
        degree: house::DEGREE,
        low: house::WORD,
    };
    sparse::fed(p, 7, f, part)
}

// The first n bytes are added to the n bytes from place `at` on.
fn add_front(q: &mut [u8], at: usize, n: usize)
    requires { (n ≤ at) × (at + n ≤ length q.old) }
    ensures { (front q.new (at + n) ≡ front q.old (at + n) ⊕ front q.old n)
        × (take at q.new ≡ take at q.old) }
{
    for i in 0..n {
        q[at + i] ^= q[i];
    }
}

// The 61 words in front become the string of bytes that they stand for.
fn flatten(q: &mut [u8], s: usize)
    requires { (s ≤ 16) × (61 * s ≤ length q.old) }
    ensures { front q.new (61 * s) ≡ folded exponents s q.old 0 }
{
    add_front(q, 56 * s, 5 * s);
    add_front(q, 59 * s, 2 * s);
    add_front(q, 60 * s, s);
}

// A part behind a residue, which comes first as a block of its own: what is left are the bytes of 61 words, from place 8 on.
fn fold_from(q: &mut [u8], s: usize, size: usize, f: u64, part: &[u8])
    requires { Word s × (0 < size) × (8 + size + 61 * s ≤ length q.old) × (q.old ≡ replicate (length q.old) 0) }
    ensures { rem house_key (front (drop 8 q.new) (61 * s)) ≡ rem house_key (value_from f (bits part.now)) }
{
    fold_blocks::divide_piece(q, s, &f.to_be_bytes());
    fold_blocks::fold(&mut q[8..], s, size, part);
    flatten(&mut q[8..], s);
}

// A part of middle length behind a residue: words of four bytes.
fn feed_middle(f: u64, part: &[u8]) -> u64
    ensures { result ≡ rem house_key (value_from f (bits part.now)) }
{
    let mut q: [u8; 1276] = [0; 1276];
    fold_from(&mut q, 4, 1024, f, part);
    feed_sevens(0, &q[8..252])
}

// A long part behind a residue: words of sixteen bytes. What is left of it is a part of middle length. Eight bytes of the buffer are for its place on
// the stack: with them the words lie at multiples of 16, which is faster by a seventh.
fn feed_long(f: u64, part: &[u8]) -> u64
    ensures { result ≡ rem house_key (value_from f (bits part.now)) }
{
    let mut q: [u8; 5088] = [0; 5088];
    fold_from(&mut q, 16, 4096, f, part);
    feed_middle(0, &q[8..984])
}

// A part behind a residue under the house key: the way for parts of less than 8,192 bytes, as pages are, which takes less stack.
pub fn fed_page(f: u64, part: &[u8]) -> u64
    requires { f < 2 ^ 61 }
    ensures { result ≡ rem house_key (value_from f (bits part.now)) }
{
    if part.len() < 512 {
        return feed_sevens(f, part);
    }
    feed_middle(f, part)
}

// A part of any length behind a residue under the house key.
pub fn fed_house(f: u64, part: &[u8]) -> u64
    requires { f < 2 ^ 61 }
    ensures { result ≡ rem house_key (value_from f (bits part.now)) }
{
    if part.len() < 8192 {
        return fed_page(f, part);
    }
    feed_long(f, part)
}
