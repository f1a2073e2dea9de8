// The readings of document 01 about drawing; and of the 2,048 numbers of degree 11, how many are drawn by 11 of the 2,046 elements each, and
// how many by none. Then degree 61, and degrees that are not listed.
#![tactic(auto)]

ghost use Rattle.std.specs.Prelude.{◌≡◌};
ghost use Rattle.refusals.specs.Refusals.{value_or};
ghost use Rattle.draw.specs.Drawing.{draw};

use acceptance::Key;
use std::io;
use std::io::Print;

// A drawn key's polynomial: the listed degrees are below 64.
fn show_key(rt: &impl Print, key: Key) -> io::Result<()> {
    let k = key.degree;
    if k < 64 {
        let power: u64 = 1 << k;
        vectors::hex(rt, b"", power ^ key.word)?;
    }
    Ok(())
}

fn show(rt: &impl Print, degree: u32, element: u64) -> io::Result<()> {
    match draw::draw(degree, element) {
        Ok(key) => show_key(rt, key)?,
        Err(r) => vectors::refused(rt, refusals::number(r))?,
    }
    vectors::text(rt, b"\n")
}

// The key of degree 11 that an element draws, degree 0 where it is refused.
fn key_of(element: u64) -> Key
    ensures { result ≡ value_or (record { degree = 0; word = 0 }) (draw 11 element) }
{
    draw::draw(11, element).unwrap_or(Key { degree: 0, word: 0 })
}

// One more at a place.
fn count_at(counts: &mut [u64], i: usize) {
    if i < counts.len() {
        counts[i] = vectors::counted(counts[i], true);
    }
}

// Counts each key of degree 11 at the place of its word.
fn count_keys(counts: &mut [u64]) {
    for e in 2..2048 {
        let key = key_of(e);
        count_at(counts, (key.word % 2048) as usize);
    }
}

// How many of the counts are n.
fn places_with(counts: &[u64], n: u64) -> u64 {
    counts.iter().filter(|count| **count == n).count() as u64
}

fn show_counts(rt: &impl Print, counts: &[u64]) -> io::Result<()> {
    vectors::decimal(rt, b"", places_with(counts, 11))?;
    vectors::decimal(rt, b" drawn by 11 elements each, ", places_with(counts, 0))?;
    vectors::text(rt, b" by none\n")
}

fn main(rt: HostRuntime) -> io::Result<()> {
    show(&rt, 11, 2)?;
    show(&rt, 11, 3)?;
    show(&rt, 11, 4)?;
    show(&rt, 11, 1)?;
    show(&rt, 11, 2048)?;
    show(&rt, 12, 2)?;
    show(&rt, 12, 0)?;
    let mut counts: [u64; 2048] = [0; 2048];
    count_keys(&mut counts);
    show_counts(&rt, &counts)?;
    show(&rt, 61, 2)?;
    show(&rt, 61, 3)?;
    show(&rt, 7, 2)?;
    show(&rt, 64, 2)?;
    show(&rt, 65, 2)
}
