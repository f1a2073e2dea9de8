// Inverses modulo keys, printed and compared with their figures: under 0x11B, under the house key, and at the degrees 63 and 64.
#![tactic(auto)]

use acceptance::Key;
use std::io;
use std::io::Print;

// The inverse of a residue that is not 0; none where a is no such residue, or the key is not accepted.
fn inverse_of(key: Key, a: u64) -> Option<u64> {
    if let Ok(p) = keys::test(key) {
        if 0 < a && gf2::is_residue(p, a) {
            return Some(inverses::inverse(p, a));
        }
    }
    None
}

fn show(rt: &impl Print, degree: u32, word: u64, a: u64) -> io::Result<()> {
    vectors::hex(rt, b"", a)?;
    match inverse_of(Key { degree, word }, a) {
        Some(x) => vectors::hex(rt, b": ", x)?,
        None => vectors::text(rt, b": none")?,
    }
    vectors::text(rt, b"\n")
}

fn show_smallest(rt: &impl Print) -> io::Result<()> {
    vectors::text(rt, b"key 11b\n")?;
    show(rt, 8, 0x1B, 0x01)?;
    show(rt, 8, 0x1B, 0x02)?;
    show(rt, 8, 0x1B, 0x53)?;
    show(rt, 8, 0x1B, 0xCA)?;
    show(rt, 8, 0x1B, 0x80)?;
    show(rt, 8, 0x1B, 0xFF)
}

fn show_house(rt: &impl Print) -> io::Result<()> {
    vectors::text(rt, b"house key\n")?;
    show(rt, 61, 0x27, 0x01)?;
    show(rt, 61, 0x27, 0x02)?;
    show(rt, 61, 0x27, 0x1000000000000000)?;
    show(rt, 61, 0x27, 0x1FFFFFFFFFFFFFFF)?;
    show(rt, 61, 0x27, 0x0123456789ABCDEF)
}

fn show_largest(rt: &impl Print) -> io::Result<()> {
    vectors::text(rt, b"degree 63, word 3\n")?;
    show(rt, 63, 0x03, 0x02)?;
    show(rt, 63, 0x03, 0x7FFFFFFFFFFFFFFF)?;
    vectors::text(rt, b"degree 64, word 1b\n")?;
    show(rt, 64, 0x1B, 0x02)?;
    show(rt, 64, 0x1B, 0x8000000000000000)?;
    show(rt, 64, 0x1B, 0xFFFFFFFFFFFFFFFF)?;
    show(rt, 64, 0x1B, 0x0123456789ABCDEF)
}

fn main(rt: HostRuntime) -> io::Result<()> {
    show_smallest(&rt)?;
    show_house(&rt)?;
    show_largest(&rt)
}
