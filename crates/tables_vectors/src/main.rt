// Making, testing and feeding by tables, printed and compared with their figures: the words of document 01, the refusals' numbers with the
// mark that went back, and a part of 10,000 bytes against feeding by bits; and plain marks, fed and turned. Under key 0x11B where nothing else
// is said.
#![tactic(auto)]

use acceptance::Key;
use marks::Running;
use refusals::Refusal;
use std::io;
use std::io::Print;

// The key 0x11B.
const KEY: Key = Key {
    degree: 8,
    word: 0x1B,
};

// One bit past the longest file.
const PAST: u64 = 34359738361;

fn show(rt: &impl Print, answer: Result<(), Refusal>, done: &[u8]) -> io::Result<()> {
    match answer {
        Ok(()) => vectors::text(rt, done),
        Err(r) => {
            vectors::refused(rt, refusals::number(r))?;
            vectors::text(rt, b"\n")
        }
    }
}

fn show_word(rt: &impl Print, n: u64, word: u64) -> io::Result<()> {
    vectors::decimal(rt, b"word ", n)?;
    vectors::hex(rt, b": ", word)?;
    vectors::text(rt, b"\n")
}

fn running(key: Key, fingerprint: u64, length: u64) -> Running {
    Running {
        key,
        fingerprint,
        length,
    }
}

fn make(rt: &impl Print, key: Key, words: &mut [u64]) -> io::Result<()> {
    show(rt, tables::make(key, words), b"made\n")
}

fn test(rt: &impl Print, key: Key, words: &[u64]) -> io::Result<()> {
    show(rt, tables::test(key, words), b"right\n")
}

// A part of whole bytes.
fn feed(
    rt: &impl Print,
    key: Key,
    fingerprint: u64,
    length: u64,
    words: &[u64],
    part: &[u8],
) -> io::Result<()> {
    let m = running(key, fingerprint, length);
    vectors::fed_or_refused(rt, m.feed_table(words, part, 8))
}

// A part with the used bits of its final byte, under 0x11B.
fn feed_used(
    rt: &impl Print,
    fingerprint: u64,
    length: u64,
    words: &[u64],
    part: &[u8],
    used: u32,
) -> io::Result<()> {
    let m = running(KEY, fingerprint, length);
    vectors::fed_or_refused(rt, m.feed_table(words, part, used))
}

// The words of document 01's readings.
fn some_words(rt: &impl Print, words: &[u64]) -> io::Result<()> {
    if words.len() == 1024 {
        show_word(rt, 1, words[1])?;
        show_word(rt, 2, words[2])?;
        show_word(rt, 128, words[128])?;
        show_word(rt, 257, words[257])?;
    }
    Ok(())
}

// What is answered of the table of 0x11B.
fn some_tests(rt: &impl Print, words: &[u64]) -> io::Result<()> {
    test(rt, KEY, words)?;
    test(rt, vectors::key(8, 0x1D), words)?;
    test(rt, vectors::key(8, 1), words)
}

fn some_feeds(rt: &impl Print, words: &[u64]) -> io::Result<()> {
    feed(rt, KEY, 1, 0, words, b"AB")?;
    feed(rt, KEY, 1, 0, words, b"")?;
    feed(rt, KEY, 0x5A, refusals::LONGEST, words, b"")
}

// 41 42, cut behind its third bit.
fn unfinished(rt: &impl Print, words: &[u64]) -> io::Result<()> {
    let rest: [u8; 2] = [0x0A, 0x10];
    feed_used(rt, 1, 0, words, b"@", 3)?;
    feed_used(rt, 0x0A, 3, words, &rest, 5)
}

// Used bits that are not 1 to 8, or not 8 without bytes, and an unused bit that is 1.
fn misused(rt: &impl Print, words: &[u64]) -> io::Result<()> {
    feed_used(rt, 1, 0, words, b"@", 0)?;
    feed_used(rt, 1, 0, words, b"@", 9)?;
    feed_used(rt, 1, 0, words, b"", 7)?;
    feed_used(rt, 1, 0, words, b"A", 7)
}

fn some_refusals(rt: &impl Print, words: &[u64]) -> io::Result<()> {
    feed(rt, KEY, 0x5A, refusals::LONGEST, words, b"A")?;
    feed(rt, KEY, 0x100, 0, words, b"A")?;
    feed(rt, vectors::key(8, 0x1D), 1, 0, words, b"")?;
    feed(rt, vectors::key(7, 0x7F), 1, 0, words, b"A")
}

// One bit of the last word is another.
fn with_a_wrong_word(rt: &impl Print, words: &mut [u64]) -> io::Result<()> {
    if words.len() == 1024 {
        words[1023] = words[1023] ^ 1;
        test(rt, KEY, words)?;
        feed(rt, KEY, 0x100, 34359738368, words, b"A")?;
    }
    Ok(())
}

fn with_a_wrong_size(rt: &impl Print) -> io::Result<()> {
    let mut words: [u64; 1023] = [0; 1023];
    make(rt, vectors::key(8, 1), &mut words)?;
    make(rt, KEY, &mut words)?;
    test(rt, KEY, &words)?;
    feed(rt, KEY, 0x100, 34359738368, &words, b"A")
}

fn some_tables(rt: &impl Print) -> io::Result<()> {
    let mut words: [u64; 1024] = [0; 1024];
    make(rt, KEY, &mut words)?;
    make(rt, vectors::key(7, 0x7F), &mut words)?;
    some_words(rt, &words)?;
    some_tests(rt, &words)?;
    some_feeds(rt, &words)?;
    unfinished(rt, &words)?;
    misused(rt, &words)?;
    some_refusals(rt, &words)?;
    with_a_wrong_word(rt, &mut words)
}

// Some bytes that do not repeat soon.
fn fill(part: &mut [u8]) {
    for i in 0..part.len() {
        part[i] = (i % 251) as u8;
    }
}

// A part by bits, and by the table of the key.
fn both_ways(rt: &impl Print, key: Key, words: &mut [u64], part: &[u8]) -> io::Result<()> {
    make(rt, key, words)?;
    vectors::fed_or_refused(rt, running(key, 1, 0).feed(part, 8))?;
    feed(rt, key, 1, 0, words, part)
}

fn at_some_degrees(rt: &impl Print, words: &mut [u64], part: &[u8]) -> io::Result<()> {
    both_ways(rt, KEY, words, part)?;
    both_ways(rt, vectors::key(31, 9), words, part)?;
    both_ways(rt, vectors::key(61, 0x27), words, part)?;
    both_ways(rt, vectors::key(63, 3), words, part)?;
    both_ways(rt, vectors::key(64, 0x1B), words, part)
}

fn long_part(rt: &impl Print) -> io::Result<()> {
    let mut words: [u64; 1024] = [0; 1024];
    let mut part: [u8; 10001] = [0; 10001];
    fill(&mut part);
    at_some_degrees(rt, &mut words, &part)
}

// Degree 64: every fingerprint of 64 bits is reduced.
fn largest_degree(rt: &impl Print) -> io::Result<()> {
    let key = vectors::key(64, 0x1B);
    let mut words: [u64; 1024] = [0; 1024];
    make(rt, key, &mut words)?;
    show_word(rt, 1, words[1])?;
    show_word(rt, 128, words[128])?;
    show_word(rt, 257, words[257])?;
    test(rt, key, &words)?;
    feed(rt, key, 1, 0, &words, b"AB")?;
    feed(rt, key, 0xFFFFFFFFFFFFFFFF, 64, &words, b"AB")
}

// Degree 65, and words with a bit at t^k: number 1. A reducible key of degree 64.
fn no_keys(rt: &impl Print) -> io::Result<()> {
    let mut words: [u64; 1024] = [0; 1024];
    make(rt, vectors::key(65, 0x1B), &mut words)?;
    make(rt, vectors::key(8, 0x11B), &mut words)?;
    make(rt, vectors::key(63, 0x8000000000000003), &mut words)?;
    make(rt, vectors::key(64, 1), &mut words)
}

// A part behind the plain mark of the empty file: with no table, and by the table of the key.
fn feed_plain(
    rt: &impl Print,
    what: &[u8],
    key: Key,
    words: &[u64],
    part: &[u8],
    used: u32,
) -> io::Result<()> {
    vectors::text(rt, what)?;
    match Running::begin_plain(key) {
        Ok(m) => {
            vectors::text(rt, b"\n  with no table: ")?;
            vectors::fed_or_refused(rt, m.feed(part, used))?;
            vectors::text(rt, b"  by the table: ")?;
            vectors::fed_or_refused(rt, m.feed_table(words, part, used))
        }
        Err(r) => {
            vectors::text(rt, b": ")?;
            vectors::refused(rt, refusals::number(r))?;
            vectors::text(rt, b"\n")
        }
    }
}

fn turn(rt: &impl Print, what: &[u8], key: Key, fingerprint: u64, length: u64) -> io::Result<()> {
    vectors::text(rt, what)?;
    vectors::fed_or_refused(rt, running(key, fingerprint, length).turn())
}

// A mark turned, and a part fed behind it.
fn turn_and_feed(
    rt: &impl Print,
    fingerprint: u64,
    length: u64,
    words: &[u64],
    part: &[u8],
    used: u32,
) -> io::Result<()> {
    match running(KEY, fingerprint, length).turn() {
        Ok(m) => {
            vectors::text(rt, b"  turned: ")?;
            vectors::mark(rt, m)?;
            vectors::text(rt, b"  and fed: ")?;
            vectors::fed_or_refused(rt, m.feed_table(words, part, used))
        }
        Err(refused) => {
            vectors::refused(rt, refusals::number(refused.refusal))?;
            vectors::text(rt, b"\n")
        }
    }
}

// 41, 41 42, and 41 with 3 bits behind it; four files whose plain fingerprint is 0; and two keys that are refused.
fn plain_feeds(rt: &impl Print, words: &[u64]) -> io::Result<()> {
    let key_itself: [u8; 2] = [0x01, 0x1B];
    feed_plain(rt, b"plain mark of 41", KEY, words, b"A", 8)?;
    feed_plain(rt, b"plain mark of 41 42", KEY, words, b"AB", 8)?;
    feed_plain(rt, b"plain mark of 41 40, u 3", KEY, words, b"A@", 3)?;
    feed_plain(rt, b"plain mark of the empty file", KEY, words, b"", 8)?;
    feed_plain(rt, b"plain mark of 00", KEY, words, b"\0", 8)?;
    feed_plain(rt, b"plain mark of 00 00", KEY, words, b"\0\0", 8)?;
    feed_plain(rt, b"plain mark of 01 1B", KEY, words, &key_itself, 8)?;
    feed_plain(
        rt,
        b"plain mark, key 80",
        vectors::key(7, 0),
        words,
        b"A",
        8,
    )?;
    feed_plain(
        rt,
        b"plain mark, key 101",
        vectors::key(8, 1),
        words,
        b"A",
        8,
    )
}

// 41 42: its plain mark is turned behind the eighth bit, and behind the third, and the rest is fed.
fn turned_between(rt: &impl Print, words: &[u64]) -> io::Result<()> {
    let rest: [u8; 2] = [0x0A, 0x10];
    vectors::text(rt, b"41 of 8 bits, and 42\n")?;
    turn_and_feed(rt, 0x41, 8, words, b"B", 8)?;
    vectors::text(rt, b"02 of 3 bits, and 0A 10, u 5\n")?;
    turn_and_feed(rt, 2, 3, words, &rest, 5)
}

fn some_turns(rt: &impl Print) -> io::Result<()> {
    let limit = refusals::LONGEST;
    turn(rt, b"9D of 16 bits turned: ", KEY, 0x9D, 16)?;
    turn(rt, b"C3 of 16 bits turned: ", KEY, 0xC3, 16)?;
    turn(rt, b"00 of 0 bits turned: ", KEY, 0, 0)?;
    turn(rt, b"01 of 0 bits turned: ", KEY, 1, 0)?;
    turn(rt, b"00 of the longest turned: ", KEY, 0, limit)?;
    turn(
        rt,
        b"under the house key: ",
        vectors::key(61, 0x27),
        0,
        limit,
    )?;
    turn(rt, b"under degree 64: ", vectors::key(64, 0x1B), 0, limit)
}

fn turns_refused(rt: &impl Print) -> io::Result<()> {
    turn(rt, b"one bit more turned: ", KEY, 0, PAST)?;
    turn(rt, b"100 of 8 bits turned: ", KEY, 0x100, 8)?;
    turn(rt, b"100, one bit more turned: ", KEY, 0x100, PAST)?;
    turn(rt, b"under key 80: ", vectors::key(7, 0), 0x100, PAST)?;
    turn(rt, b"under key 101: ", vectors::key(8, 1), 0x100, PAST)
}

fn plain_marks(rt: &impl Print) -> io::Result<()> {
    let mut words: [u64; 1024] = [0; 1024];
    make(rt, KEY, &mut words)?;
    plain_feeds(rt, &words)?;
    turned_between(rt, &words)?;
    some_turns(rt)?;
    turns_refused(rt)
}

// Degree 64: nine zero bytes, and the nine bytes of the key itself, have the plain fingerprint 0.
fn plain_marks_of_the_largest_degree(rt: &impl Print) -> io::Result<()> {
    let key = vectors::key(64, 0x1B);
    let mut words: [u64; 1024] = [0; 1024];
    let zeros: [u8; 9] = [0; 9];
    let key_itself: [u8; 9] = [0x01, 0, 0, 0, 0, 0, 0, 0, 0x1B];
    make(rt, key, &mut words)?;
    feed_plain(rt, b"plain mark of 41 42, degree 64", key, &words, b"AB", 8)?;
    feed_plain(rt, b"plain mark of nine 00", key, &words, &zeros, 8)?;
    feed_plain(rt, b"plain mark of the key", key, &words, &key_itself, 8)?;
    turn(rt, b"00 of 72 bits turned: ", key, 0, 72)
}

fn main(rt: HostRuntime) -> io::Result<()> {
    some_tables(&rt)?;
    with_a_wrong_size(&rt)?;
    long_part(&rt)?;
    largest_degree(&rt)?;
    no_keys(&rt)?;
    plain_marks(&rt)?;
    plain_marks_of_the_largest_degree(&rt)
}
