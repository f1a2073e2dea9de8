// The Bench level: the functions that it sells, for C. Each answers 0 or the refusal's number; on refusal every lent place and buffer
// keeps what it held. A key comes as its degree and the word of its coefficients below t^degree. A mark's length is in bits, and `used` counts
// the used bits of a part's final byte. The guarantee over lists of these calls stands in the crate bench_book.
#![tactic(auto)]

ghost use Rattle.std.specs.Prelude.{◌≡◌};
ghost use Rattle.refusals.specs.Refusals.{number_of, state_of, value_or};
ghost use Rattle.keys.specs.Testing.{test_key};
ghost use Rattle.files.specs.Files.{as_part};
ghost use Rattle.tables.specs.Tables.{make_table, test_table};
ghost use Rattle.marks.specs.Feeding.{begin, feed_bits, feed_table, feed_house};
ghost use Rattle.marks.specs.PlainMarks.{begin_plain, turn};
ghost use Rattle.stock.specs.Stock.{stock_word};
ghost use Rattle.c_interface.specs.Interface.{key_at, mark_at};

use acceptance::Key;
use marks::Running;

// Is the key accepted? Numbers 1, 2.
#[unsafe(no_mangle)]
pub extern "C" fn gfp_test_key(degree: u32, word: u64) -> u32
    ensures { result ≡ number_of (test_key (key_at degree word)) }
{
    let key = Key { degree, word };
    refusals::number_of(keys::test(key).map(|_| ()))
}

// The word of the stock key of a degree 8 to 64: the smallest accepted key of that degree; 0 for every other number. No numbers.
#[unsafe(no_mangle)]
pub extern "C" fn gfp_stock_key(degree: u32) -> u64
    ensures { result ≡ stock_word degree }
{
    stock::stock_word(degree)
}

// The mark of the empty file. Numbers 1, 2.
#[unsafe(no_mangle)]
pub extern "C" fn gfp_begin(degree: u32, word: u64, fingerprint: &mut u64, bits: &mut u64) -> u32
    ensures { (result ≡ number_of (begin (key_at degree word)))
        × (mark_at fingerprint.new bits.new ≡ value_or (mark_at fingerprint.old bits.old) (begin (key_at degree word))) }
{
    let key = Key { degree, word };
    c_interface::store(Running::begin(key), fingerprint, bits)
}

// The plain mark of the empty file. Numbers 1, 2.
#[unsafe(no_mangle)]
pub extern "C" fn gfp_begin_plain(
    degree: u32,
    word: u64,
    fingerprint: &mut u64,
    bits: &mut u64,
) -> u32
    ensures { (result ≡ number_of (begin_plain (key_at degree word)))
        × (mark_at fingerprint.new bits.new ≡ value_or (mark_at fingerprint.old bits.old) (begin_plain (key_at degree word))) }
{
    let key = Key { degree, word };
    c_interface::store(Running::begin_plain(key), fingerprint, bits)
}

// A plain mark turned into a mark with the leading 1, or such a mark into a plain mark. Numbers 1, 2, 7, 8.
#[unsafe(no_mangle)]
pub extern "C" fn gfp_turn(degree: u32, word: u64, fingerprint: &mut u64, bits: &mut u64) -> u32
    ensures { (result ≡ number_of (turn (key_at degree word) (mark_at fingerprint.old bits.old)))
        × (mark_at fingerprint.new bits.new ≡ state_of (turn (key_at degree word) (mark_at fingerprint.old bits.old))) }
{
    let m = c_interface::running(degree, word, *fingerprint, *bits);
    c_interface::store(m.turn(), fingerprint, bits)
}

// The next part of a file, bit by bit. Numbers 1, 2, 7, 8, 19.
#[unsafe(no_mangle)]
pub extern "C" fn gfp_feed(
    degree: u32,
    word: u64,
    fingerprint: &mut u64,
    bits: &mut u64,
    part: &[u8],
    used: u32,
) -> u32
    ensures { (result ≡ number_of (feed_bits (key_at degree word) (mark_at fingerprint.old bits.old) (as_part part.now used)))
        × (mark_at fingerprint.new bits.new
        ≡ state_of (feed_bits (key_at degree word) (mark_at fingerprint.old bits.old) (as_part part.now used))) }
{
    let m = c_interface::running(degree, word, *fingerprint, *bits);
    c_interface::store(m.feed(part, used), fingerprint, bits)
}

// The key's table into the lent words. Numbers 1, 2, 5.
#[unsafe(no_mangle)]
pub extern "C" fn gfp_make_table(degree: u32, word: u64, words: &mut [u64]) -> u32
    ensures { (result ≡ number_of (make_table (key_at degree word) words.old))
        × (words.new ≡ state_of (make_table (key_at degree word) words.old)) }
{
    let key = Key { degree, word };
    refusals::number_of(tables::make(key, words))
}

// Are the words the key's table? Numbers 1, 2, 5, 6.
#[unsafe(no_mangle)]
pub extern "C" fn gfp_test_table(degree: u32, word: u64, words: &[u64]) -> u32
    ensures { result ≡ number_of (test_table (key_at degree word) words.now) }
{
    let key = Key { degree, word };
    refusals::number_of(tables::test(key, words))
}

// The next part by a table. Numbers 1, 2, 5, 6, 7, 8, 19.
#[unsafe(no_mangle)]
pub extern "C" fn gfp_feed_table(
    degree: u32,
    word: u64,
    fingerprint: &mut u64,
    bits: &mut u64,
    words: &[u64],
    part: &[u8],
    used: u32,
) -> u32
    ensures { (result ≡ number_of (feed_table (key_at degree word) (mark_at fingerprint.old bits.old) words.now (as_part part.now used)))
        × (mark_at fingerprint.new bits.new
        ≡ state_of (feed_table (key_at degree word) (mark_at fingerprint.old bits.old) words.now (as_part part.now used))) }
{
    let m = c_interface::running(degree, word, *fingerprint, *bits);
    c_interface::store(m.feed_table(words, part, used), fingerprint, bits)
}

// The next part by the house key's table, which the library holds. Numbers 1, 2, 6, 7, 8, 19.
#[unsafe(no_mangle)]
pub extern "C" fn gfp_feed_house(
    degree: u32,
    word: u64,
    fingerprint: &mut u64,
    bits: &mut u64,
    part: &[u8],
    used: u32,
) -> u32
    ensures { (result ≡ number_of (feed_house (key_at degree word) (mark_at fingerprint.old bits.old) (as_part part.now used)))
        × (mark_at fingerprint.new bits.new
        ≡ state_of (feed_house (key_at degree word) (mark_at fingerprint.old bits.old) (as_part part.now used))) }
{
    let m = c_interface::running(degree, word, *fingerprint, *bits);
    c_interface::store(m.feed_house(part, used), fingerprint, bits)
}
