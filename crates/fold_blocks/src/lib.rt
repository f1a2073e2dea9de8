// Folding under the house key, t^61 + t^5 + t^2 + t + 1. Where w is a power of two, the key's power by w is the same sum of powers of t^w. So a
// part is divided by that power with four additions a byte, many bytes at a time, a block a turn, and 61 words are left that stand for it. These
// functions are for the project's own crates: what they require, every caller proves.
#![tactic(auto)]

ghost use Rattle.std.specs.Prelude.{◌≡◌, ◌+◌, ◌*◌, ◌≤◌, ◌<◌, length, drop};
ghost use Rattle.gf2.specs.Polynomials.{rem};
ghost use Rattle.files.specs.Files.{bits, value_from};
ghost use Rattle.house.specs.House.{house_key};
ghost use Rattle.fold_blocks.specs.Folds.{exponents, folded, Word};

// The quotient's bytes for the bytes of src, behind the 61 words of s bytes in front. A byte depends on bytes at least 56 words before it, so the
// compiler makes many at once.
fn divide(q: &mut [u8], s: usize, src: &[u8])
    requires { (0 < s) × (s ≤ 16) × (length src.now + 61 * s ≤ length q.old) }
    ensures { folded exponents s q.new (length src.now) ≡ value_from (folded exponents s q.old 0) (bits src.now) }
{
    let two = 2 * s;
    let five = 5 * s;
    let all = house::DEGREE as usize * s;
    for i in 0..src.len() {
        q[i + all] = src[i] ^ q[i + five] ^ q[i + two] ^ q[i + s] ^ q[i];
    }
}

// The same with the size of a word as a constant, for which the compiler makes code of its own.
pub fn divide_piece(q: &mut [u8], s: usize, src: &[u8])
    requires { Word s × (length src.now + 61 * s ≤ length q.old) }
    ensures { folded exponents s q.new (length src.now) ≡ value_from (folded exponents s q.old 0) (bits src.now) }
{
    if s == 16 {
        divide(q, 16, src);
    } else {
        divide(q, 4, src);
    }
}

// A block behind what the 61 words in front stand for: then those behind as many bytes stand for it. It goes in pieces of 64 bytes, of which the
// compiler loads none twice where a word has 16 bytes.
fn divide_block(q: &mut [u8], s: usize, src: &[u8])
    requires { Word s × (length src.now + 61 * s ≤ length q.old) }
    ensures { rem house_key (folded exponents s (drop (length src.now) q.new) 0)
        ≡ rem house_key (value_from (folded exponents s q.old 0) (bits src.now)) }
{
    let pieces = src.len() / 64;
    for i in 0..pieces {
        let at = 64 * i;
        divide_piece(&mut q[at..], s, &src[at..at + 64]);
    }
    let at = 64 * pieces;
    divide_piece(&mut q[at..], s, &src[at..]);
}

// A block behind what the 61 words in front stand for.
fn turn(q: &mut [u8], s: usize, src: &[u8])
    requires { Word s × (length src.now + 61 * s ≤ length q.old) }
    ensures { rem house_key (folded exponents s q.new 0)
        ≡ rem house_key (value_from (folded exponents s q.old 0) (bits src.now)) }
{
    divide_block(q, s, src);
    let n = src.len();
    q.copy_within(n..n + house::DEGREE as usize * s, 0);
}

// A part behind what the 61 words in front stand for, a block a turn.
pub fn fold(q: &mut [u8], s: usize, size: usize, part: &[u8])
    requires { Word s × (0 < size) × (size + 61 * s ≤ length q.old) }
    ensures { rem house_key (folded exponents s q.new 0)
        ≡ rem house_key (value_from (folded exponents s q.old 0) (bits part.now)) }
{
    for block in part.chunks(size) {
        turn(q, s, block);
    }
}
