// The bytes of the flagged windows against the pattern's. These functions are for the project's own crates: what they require, every caller proves.
#![tactic(auto)]

ghost use Rattle.std.specs.Prelude.{◌≡◌, false, ◌+◌, ◌*◌, ◌≤◌, ◌<◌, length};
ghost use Rattle.std.proofs.lemmas.List.Edits.{sets};
ghost use Rattle.refusals.specs.Refusals.{longest};
ghost use Rattle.comparing.specs.Flagged.{NoneFlagged, NextFlagged, flagged_places, flagged_alarms};

// The number of places, and the number of false alarms.
#[derive(Clone, Copy)]
pub struct Counts {
    pub places: u32,
    pub alarms: u32,
}

// Whether one of four windows is flagged.
fn one_of_four(flags: &[bool; 1024], i: usize) -> bool
    requires { i + 4 ≤ 1024 }
    ensures { result ≡ false → NoneFlagged flags.now i (i + 4) }
{
    flags[i] | flags[i + 1] | flags[i + 2] | flags[i + 3]
}

// Whether one of eight is.
fn one_of_eight(flags: &[bool; 1024], i: usize) -> bool
    requires { i + 8 ≤ 1024 }
    ensures { result ≡ false → NoneFlagged flags.now i (i + 8) }
{
    one_of_four(flags, i) | one_of_four(flags, i + 4)
}

// The first flagged window from the given one on, if there is one.
fn flagged_from(flags: &[bool; 1024], first: usize, size: usize) -> Option<usize>
    requires { (first ≤ size) × (size ≤ 1024) }
    ensures { NextFlagged flags.now first size result }
{
    for i in first..size {
        if flags[i] {
            return Some(i);
        }
    }
    None
}

// The same, eight windows at a time as long as none of them is flagged.
fn next_flagged(flags: &[bool; 1024], first: usize, size: usize) -> Option<usize>
    requires { (first ≤ size) × (size ≤ 1024) }
    ensures { NextFlagged flags.now first size result }
{
    let mut i = first;
    while 8 <= size - i && !one_of_eight(flags, i) {
        i += 8;
    }
    flagged_from(flags, i, size)
}

// The flagged windows of a block, added to what was found before. The comparison leaves off at the first byte that differs; a place is written
// behind the earlier ones, as far as the lent words reach.
pub fn compare(
    text: &[u8],
    pattern: &[u8],
    flags: &[bool; 1024],
    from: usize,
    size: usize,
    found: Counts,
    places: &mut [u32],
) -> Counts
    requires { (size ≤ 1024)
        × (from + size + length pattern.now ≤ length text.now + 1)
        × (0 < length pattern.now)
        × (8 * length text.now ≤ longest)
        × (found.places ≤ from)
        × (found.alarms ≤ from) }
    ensures { (result.places ≡ found.places + length (flagged_places flags.now text.now pattern.now from size))
        × (result.alarms ≡ found.alarms + length (flagged_alarms flags.now text.now pattern.now from size))
        × (places.new ≡ sets places.old found.places
        (flagged_places flags.now text.now pattern.now from size)) }
{
    let mut counts = found;
    let mut next = next_flagged(flags, 0, size);
    // Document 01 names this form: the loop over windows holds a loop over the pattern's bytes, left by a label at the first difference.
    'windows: while let Some(i) = next {
        let at = from + i;
        next = next_flagged(flags, i + 1, size);
        for (j, b) in pattern.iter().enumerate() {
            if text[at + j] != *b {
                counts.alarms += 1;
                continue 'windows;
            }
        }
        let n = counts.places as usize;
        if n < places.len() {
            places[n] = at as u32;
        }
        counts.places += 1;
    }
    counts
}
