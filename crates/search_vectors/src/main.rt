// Searches, printed and compared with their figures: the numbers of places and false alarms, or the refusal's number, and the lent words,
// each 9 before the call. Under the key of degree 8, word 1B, where nothing else is said.
#![tactic(auto)]

use acceptance::Key;
use refusals::Refusal;
use search::Counts;
use std::io;
use std::io::Print;

fn show(rt: &impl Print, answer: Result<Counts, Refusal>) -> io::Result<()> {
    match answer {
        Ok(found) => {
            vectors::decimal(rt, b"", u64::from(found.places))?;
            vectors::decimal(rt, b" places, ", u64::from(found.alarms))?;
            vectors::text(rt, b" false alarms")
        }
        Err(r) => vectors::refused(rt, refusals::number(r)),
    }
}

// With two words lent.
fn with_two(rt: &impl Print, what: &[u8], key: Key, text: &[u8], pattern: &[u8]) -> io::Result<()> {
    let mut words: [u32; 2] = [9; 2];
    vectors::text(rt, what)?;
    show(rt, search::search(key, text, pattern, &mut words))?;
    vectors::decimal(rt, b", words ", u64::from(words[0]))?;
    vectors::decimal(rt, b" ", u64::from(words[1]))?;
    vectors::text(rt, b"\n")
}

// With one word lent.
fn with_one(rt: &impl Print, what: &[u8], key: Key, text: &[u8], pattern: &[u8]) -> io::Result<()> {
    let mut words: [u32; 1] = [9; 1];
    vectors::text(rt, what)?;
    show(rt, search::search(key, text, pattern, &mut words))?;
    vectors::decimal(rt, b", word ", u64::from(words[0]))?;
    vectors::text(rt, b"\n")
}

// A pattern that overlaps itself, a false alarm, a place, and patterns that are too long or empty.
fn under_one_key(rt: &impl Print) -> io::Result<()> {
    let aaa: [u8; 3] = [0x61, 0x61, 0x61];
    let aa: [u8; 2] = [0x61, 0x61];
    let zeros: [u8; 2] = [0x00, 0x00];
    let other: [u8; 2] = [0x01, 0x1B];
    let key = vectors::key(8, 0x1B);
    with_two(rt, b"61 61 in 61 61 61: ", key, &aaa, &aa)?;
    with_one(rt, b"61 61 in 61 61 61: ", key, &aaa, &aa)?;
    with_two(rt, b"01 1B in 00 00: ", key, &zeros, &other)?;
    with_two(rt, b"00 00 in 00 00: ", key, &zeros, &zeros)?;
    with_two(rt, b"61 61 61 in 61 61: ", key, &aa, &aaa)?;
    with_two(rt, b"the empty pattern: ", key, &aa, b"")?;
    with_two(rt, b"61 61 in the empty text: ", key, b"", &aa)
}

// Under keys that are refused.
fn refused_keys(rt: &impl Print) -> io::Result<()> {
    let aaa: [u8; 3] = [0x61, 0x61, 0x61];
    let aa: [u8; 2] = [0x61, 0x61];
    with_two(rt, b"key ff: ", vectors::key(7, 0x7F), &aaa, &aa)?;
    with_two(
        rt,
        b"key 101, the empty pattern: ",
        vectors::key(8, 0x01),
        &aaa,
        b"",
    )?;
    with_two(
        rt,
        b"degree 8, word 11b: ",
        vectors::key(8, 0x11B),
        &aaa,
        &aa,
    )?;
    with_two(
        rt,
        b"degree 65, word 1b: ",
        vectors::key(65, 0x1B),
        &aaa,
        &aa,
    )
}

// Under keys of degree 64, where a false alarm has nine bytes.
fn at_64(rt: &impl Print) -> io::Result<()> {
    let aaa: [u8; 3] = [0x61, 0x61, 0x61];
    let aa: [u8; 2] = [0x61, 0x61];
    let zeros: [u8; 9] = [0x00; 9];
    let other: [u8; 9] = [0x01, 0x00, 0x00, 0x00, 0x00, 0x00, 0x00, 0x00, 0x1B];
    let key = vectors::key(64, 0x1B);
    with_two(
        rt,
        b"degree 64, word 1b, 61 61 in 61 61 61: ",
        key,
        &aaa,
        &aa,
    )?;
    with_two(
        rt,
        b"degree 64, word 1b, 01, 00 seven times, 1B in 00 nine times: ",
        key,
        &zeros,
        &other,
    )?;
    with_two(
        rt,
        b"degree 64, word 1b, 00 nine times in 00 nine times: ",
        key,
        &zeros,
        &zeros,
    )?;
    with_two(
        rt,
        b"degree 64, word 1: ",
        vectors::key(64, 0x01),
        &aaa,
        &aa,
    )
}

fn main(rt: HostRuntime) -> io::Result<()> {
    under_one_key(&rt)?;
    refused_keys(&rt)?;
    at_64(&rt)
}
