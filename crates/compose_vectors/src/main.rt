// Joining, also in two groupings, and page changes, of our marks and of plain marks, printed and compared with their figures: the fingerprint and the
// length in bits, or the refusal's number with the mark that went back. Under key 0x11B where nothing else is said.
#![tactic(auto)]

use acceptance::Key;
use files::Mark;
use marks::{RefusedMark, Running};
use std::io;
use std::io::Print;

// The key 0x11B.
const KEY: Key = Key {
    degree: 8,
    word: 0x1B,
};

// 2^63: twice that is past 64 bits.
const HALF: u64 = 9223372036854775808;

// 2^61: eight times that is past 64 bits.
const EIGHTH: u64 = 2305843009213693952;

// The last place of 64 bits, and 64 ones.
const LAST: u64 = 18446744073709551615;

// The mark of 41 42.
const FILE: Mark = Mark {
    fingerprint: 0x9D,
    length: 16,
};

// Which marks are joined: ours, or plain ones.
#[derive(Clone, Copy)]
enum Kind {
    Ours,
    Plain,
}

fn running(key: Key, m: Mark) -> Running {
    Running {
        key,
        fingerprint: m.fingerprint,
        length: m.length,
    }
}

fn mark(fingerprint: u64, length: u64) -> Mark {
    Mark {
        fingerprint,
        length,
    }
}

fn behind(kind: Kind, m: Running, other: Mark) -> Result<Running, RefusedMark> {
    match kind {
        Kind::Ours => compose::join_behind(m, other),
        Kind::Plain => compose::join_plain_behind(m, other),
    }
}

fn in_front(kind: Kind, m: Running, other: Mark) -> Result<Running, RefusedMark> {
    match kind {
        Kind::Ours => compose::join_in_front(m, other),
        Kind::Plain => compose::join_plain_in_front(m, other),
    }
}

// The mark m with the other one behind it, and in front of it.
fn join_kind(
    rt: &impl Print,
    what: &[u8],
    kind: Kind,
    key: Key,
    m: Mark,
    other: Mark,
) -> io::Result<()> {
    let m = running(key, m);
    vectors::text(rt, what)?;
    vectors::text(rt, b"\n  behind: ")?;
    vectors::fed_or_refused(rt, behind(kind, m, other))?;
    vectors::text(rt, b"  in front: ")?;
    vectors::fed_or_refused(rt, in_front(kind, m, other))
}

fn join(rt: &impl Print, what: &[u8], key: Key, m: Mark, other: Mark) -> io::Result<()> {
    join_kind(rt, what, Kind::Ours, key, m, other)
}

fn join_plain(rt: &impl Print, what: &[u8], key: Key, m: Mark, other: Mark) -> io::Result<()> {
    join_kind(rt, what, Kind::Plain, key, m, other)
}

// Three marks in their order, the first two joined first.
fn left_first(kind: Kind, a: Mark, b: Mark, c: Mark) -> Result<Running, RefusedMark> {
    behind(kind, behind(kind, running(KEY, a), b)?, c)
}

// The last two joined first.
fn right_first(kind: Kind, a: Mark, b: Mark, c: Mark) -> Result<Running, RefusedMark> {
    in_front(kind, behind(kind, running(KEY, b), c)?, a)
}

// Both groupings. Where they are refused, the mark that went back may be another one.
fn group(rt: &impl Print, what: &[u8], kind: Kind, a: Mark, b: Mark, c: Mark) -> io::Result<()> {
    vectors::text(rt, what)?;
    vectors::text(rt, b"\n  left first: ")?;
    vectors::fed_or_refused(rt, left_first(kind, a, b, c))?;
    vectors::text(rt, b"  right first: ")?;
    vectors::fed_or_refused(rt, right_first(kind, a, b, c))
}

// A page with u used bits in its final byte changed in a mark, by one with v.
fn change_bits(
    rt: &impl Print,
    what: &[u8],
    m: Mark,
    place: u64,
    old: &[u8],
    u: u32,
    new: &[u8],
    v: u32,
) -> io::Result<()> {
    let m = running(KEY, m);
    vectors::text(rt, what)?;
    vectors::fed_or_refused(rt, compose::replace_page(m, place, old, u, new, v))
}

// A page of whole bytes.
fn change(
    rt: &impl Print,
    what: &[u8],
    m: Mark,
    place: u64,
    old: &[u8],
    new: &[u8],
) -> io::Result<()> {
    change_bits(rt, what, m, place, old, 8, new, 8)
}

fn joins(rt: &impl Print) -> io::Result<()> {
    join(rt, b"41 and 42", KEY, mark(0x5A, 8), mark(0x59, 8))?;
    join(
        rt,
        b"3 bits of 41 and the 13 behind",
        KEY,
        mark(0x0A, 3),
        mark(0x14, 13),
    )?;
    join(rt, b"41 and the empty file", KEY, mark(0x5A, 8), mark(1, 0))
}

fn joins_at_the_limit(rt: &impl Print) -> io::Result<()> {
    let limit = refusals::LONGEST;
    join(
        rt,
        b"34359738360 bits and none",
        KEY,
        mark(0x5A, limit),
        mark(1, 0),
    )?;
    join(
        rt,
        b"34359738360 bits and one",
        KEY,
        mark(0x5A, limit),
        mark(3, 1),
    )
}

fn joins_refused(rt: &impl Print) -> io::Result<()> {
    join(
        rt,
        b"2^63 bits and 2^63",
        KEY,
        mark(0x5A, HALF),
        mark(0x59, HALF),
    )?;
    join(
        rt,
        b"a fingerprint of 9 bits",
        KEY,
        mark(0x5A, 8),
        mark(0x100, 8),
    )?;
    join(
        rt,
        b"key 255",
        vectors::key(7, 0x7F),
        mark(0x5A, 8),
        mark(0x59, 8),
    )?;
    join(
        rt,
        b"key 101, 2^63 bits",
        vectors::key(8, 1),
        mark(0x5A, HALF),
        mark(0x59, 8),
    )
}

// Degree 64: every fingerprint of 64 bits is reduced.
fn joins_at_the_largest_degree(rt: &impl Print) -> io::Result<()> {
    let key = vectors::key(64, 0x1B);
    join(
        rt,
        b"41 and 42, degree 64",
        key,
        mark(0x141, 8),
        mark(0x142, 8),
    )?;
    join(
        rt,
        b"all ones and 42, degree 64",
        key,
        mark(LAST, 64),
        mark(0x142, 8),
    )
}

// By 003's equation (10) as it stands. The fingerprints 5A and 59 are ours of 41 and 42: joined as plain marks they give 86, not 9D.
fn plain_joins(rt: &impl Print) -> io::Result<()> {
    join_plain(
        rt,
        b"plain marks of 41 and 42",
        KEY,
        mark(0x41, 8),
        mark(0x42, 8),
    )?;
    join_plain(
        rt,
        b"5A and 59 as plain marks",
        KEY,
        mark(0x5A, 8),
        mark(0x59, 8),
    )?;
    join_plain(
        rt,
        b"plain marks, cut behind 3 bits",
        KEY,
        mark(2, 3),
        mark(0x59, 13),
    )?;
    join_plain(
        rt,
        b"plain marks of 41 and no bits",
        KEY,
        mark(0x41, 8),
        mark(0, 0),
    )?;
    let largest = vectors::key(64, 0x1B);
    join_plain(
        rt,
        b"plain marks, degree 64",
        largest,
        mark(0x41, 8),
        mark(0x42, 8),
    )
}

fn plain_joins_refused(rt: &impl Print) -> io::Result<()> {
    let limit = refusals::LONGEST;
    join_plain(
        rt,
        b"plain marks, one bit too many",
        KEY,
        mark(0x41, limit),
        mark(1, 1),
    )?;
    join_plain(
        rt,
        b"plain marks, 2^63 bits twice",
        KEY,
        mark(0x100, HALF),
        mark(1, HALF),
    )?;
    join_plain(
        rt,
        b"plain marks, a fingerprint of 9 bits",
        KEY,
        mark(0x41, 8),
        mark(0x100, 8),
    )?;
    join_plain(
        rt,
        b"plain marks, key 80",
        vectors::key(7, 0),
        mark(0x41, 8),
        mark(0x100, HALF),
    )?;
    join_plain(
        rt,
        b"plain marks, key 101",
        vectors::key(8, 1),
        mark(0x41, 8),
        mark(0x100, HALF),
    )
}

// With 8 bits in the last one the three are at the limit.
fn groupings(rt: &impl Print) -> io::Result<()> {
    let a = mark(0x5A, 8);
    let b = mark(0x59, 34359738344);
    group(
        rt,
        b"41, 42 and 43",
        Kind::Ours,
        a,
        mark(0x59, 8),
        mark(0x58, 8),
    )?;
    group(
        rt,
        b"34359738360 bits in three marks",
        Kind::Ours,
        a,
        b,
        mark(3, 8),
    )?;
    group(
        rt,
        b"one bit too many in three marks",
        Kind::Ours,
        a,
        b,
        mark(3, 9),
    )
}

fn plain_groupings(rt: &impl Print) -> io::Result<()> {
    let f = mark(0x41, 8);
    let a = mark(0x5A, 8);
    let b = mark(0x59, 34359738344);
    group(
        rt,
        b"plain marks of 41, 42 and 43",
        Kind::Plain,
        f,
        mark(0x42, 8),
        mark(0x43, 8),
    )?;
    group(
        rt,
        b"plain marks, 34359738360 bits in three",
        Kind::Plain,
        a,
        b,
        mark(3, 8),
    )?;
    group(
        rt,
        b"plain marks, one bit too many in three",
        Kind::Plain,
        a,
        b,
        mark(3, 9),
    )
}

// The first mark is not acceptable by itself: the numbers differ.
fn unacceptable_grouped(rt: &impl Print) -> io::Result<()> {
    let a = mark(0x100, 8);
    let b = mark(1, 8);
    let c = mark(1, 34359738360);
    group(
        rt,
        b"9 bits in the first fingerprint of three",
        Kind::Ours,
        a,
        b,
        c,
    )?;
    group(
        rt,
        b"plain marks, 9 bits in the first of three",
        Kind::Plain,
        a,
        b,
        c,
    )
}

fn changes(rt: &impl Print) -> io::Result<()> {
    let a0: [u8; 1] = [0xA0];
    change(rt, b"41 42, 42 becomes 43: ", FILE, 1, b"B", b"C")?;
    change(rt, b"41 42, 41 becomes 40: ", FILE, 0, b"A", b"@")?;
    change(rt, b"41 42 becomes 00 00: ", FILE, 0, b"AB", b"\0\0")?;
    change_bits(
        rt,
        b"3 bits at place 1, 40 becomes A0: ",
        FILE,
        1,
        b"@",
        3,
        &a0,
        3,
    )
}

// In the plain mark of 41 42.
fn plain_changes(rt: &impl Print) -> io::Result<()> {
    let a0: [u8; 1] = [0xA0];
    let m = mark(0xC3, 16);
    change(rt, b"plain mark, 42 becomes 43: ", m, 1, b"B", b"C")?;
    change_bits(
        rt,
        b"plain mark, 3 bits at place 1, 40 becomes A0: ",
        m,
        1,
        b"@",
        3,
        &a0,
        3,
    )
}

fn changes_at_the_end(rt: &impl Print) -> io::Result<()> {
    change(rt, b"no byte at the end: ", FILE, 2, b"", b"")?;
    change(rt, b"no byte past the end: ", FILE, 3, b"", b"")?;
    change(rt, b"one byte at place 2^61: ", FILE, EIGHTH, b"A", b"@")?;
    change(rt, b"one byte at place 2^64 - 1: ", FILE, LAST, b"A", b"@")?;
    change(
        rt,
        b"one byte at place 1 of 19 bits: ",
        mark(0x86, 19),
        1,
        b"B",
        b"C",
    )?;
    change(
        rt,
        b"one byte at place 2 of 19 bits: ",
        mark(0x86, 19),
        2,
        b"B",
        b"C",
    )
}

fn changes_refused(rt: &impl Print) -> io::Result<()> {
    change(rt, b"pages of different length: ", FILE, LAST, b"A", b"")?;
    change(
        rt,
        b"a fingerprint of 9 bits: ",
        mark(0x100, 16),
        3,
        b"A",
        b"",
    )?;
    change(
        rt,
        b"a length of 2^35: ",
        mark(0x100, 34359738368),
        3,
        b"A",
        b"",
    )
}

fn changes_misused(rt: &impl Print) -> io::Result<()> {
    change_bits(rt, b"pages of 3 and 4 bits: ", FILE, 1, b"@", 3, b"@", 4)?;
    change_bits(
        rt,
        b"an unused 1 in the old page: ",
        FILE,
        1,
        b"A",
        3,
        b"@",
        3,
    )?;
    change_bits(
        rt,
        b"an unused 1 in the new page: ",
        FILE,
        1,
        b"@",
        3,
        b"A",
        3,
    )?;
    change_bits(
        rt,
        b"no used bits, past the end: ",
        FILE,
        2,
        b"A",
        0,
        b"A",
        8,
    )?;
    change_bits(rt, b"no used bits: ", FILE, 1, b"A", 0, b"A", 8)
}

fn main(rt: HostRuntime) -> io::Result<()> {
    joins(&rt)?;
    joins_at_the_limit(&rt)?;
    joins_refused(&rt)?;
    joins_at_the_largest_degree(&rt)?;
    plain_joins(&rt)?;
    plain_joins_refused(&rt)?;
    groupings(&rt)?;
    plain_groupings(&rt)?;
    unacceptable_grouped(&rt)?;
    changes(&rt)?;
    plain_changes(&rt)?;
    changes_at_the_end(&rt)?;
    changes_refused(&rt)?;
    changes_misused(&rt)
}
