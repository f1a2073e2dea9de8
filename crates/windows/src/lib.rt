// Which windows of a text have a wanted residue: a flag for each window of a block. These functions are for the project's own crates: what they
// require, every caller proves.
#![tactic(auto)]

ghost use Rattle.std.specs.Prelude.{◌≡◌, false, ◌+◌, ◌≤◌, ◌<◌, length};
ghost use Rattle.rolling.specs.Rolling.{ResidueAt};
ghost use Rattle.windows.specs.Flags.{hit, Filled, Flagged};

use rolling::Windows;

// How many windows were looked at, and the residue of the next one.
#[derive(Clone, Copy)]
pub struct Block {
    pub size: usize,
    pub next: u64,
}

// 1,024 windows in four lanes of 256, rolled side by side: a step waits for the last one of its own lane alone.
fn four_lanes(w: Windows<'_>, from: usize, g: u64, flags: &mut [bool; 1024]) -> u64
    requires { (from + 1024 + w.m ≤ length w.text.now) × ResidueAt w from g }
    ensures { ResidueAt w.entry (from + 1024) result × Filled false (hit w.entry from) 0 1024 flags.new }
{
    let [mut a, mut b, mut c, mut d] = w.start_lanes(from, g);
    for j in 0..256 {
        flags[j] = a == w.wanted;
        flags[j + 256] = b == w.wanted;
        flags[j + 512] = c == w.wanted;
        flags[j + 768] = d == w.wanted;
        let i = from + j;
        a = w.roll(i, a);
        b = w.roll(i + 256, b);
        c = w.roll(i + 512, c);
        d = w.roll(i + 768, d);
    }
    d
}

// `size` windows, one after the other. There is no next residue behind the text's last window.
fn one_by_one(w: Windows<'_>, from: usize, size: usize, g: u64, flags: &mut [bool; 1024]) -> u64
    requires { (from + size + w.m ≤ length w.text.now + 1) × (size ≤ 1024) × ResidueAt w from g }
    ensures { Flagged w.entry from size result flags.old flags.new }
{
    let mut a = g;
    for j in 0..size {
        flags[j] = a == w.wanted;
        let i = from + j;
        if i + w.m < w.text.len() {
            a = w.roll(i, a);
        }
    }
    a
}

// The next 1,024 windows, or all that are left. Four lanes pay off where the windows that three of them start with are not too long to read.
pub fn flag_block(w: Windows<'_>, from: usize, g: u64, flags: &mut [bool; 1024]) -> Block
    requires { (from + w.m ≤ length w.text.now) × ResidueAt w from g }
    ensures { (0 < result.size)
        × (result.size ≤ 1024)
        × (from + result.size + w.entry.m ≤ length w.entry.text.now + 1)
        × (result.size < 1024 → from + result.size + w.entry.m ≡ length w.entry.text.now + 1)
        × Flagged w.entry from result.size result.next flags.old flags.new }
{
    let left = w.text.len() - w.m + 1 - from;
    if w.m <= 512 && 1024 < left {
        let next = four_lanes(w, from, g, flags);
        return Block { size: 1024, next };
    }
    let size = left.min(1024);
    let next = one_by_one(w, from, size, g, flags);
    Block { size, next }
}
