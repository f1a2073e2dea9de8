// Blocks of words against the blocks behind them: is each the one before with a word added? These functions are for the project's own crates: what
// they require, every caller proves.
#![tactic(auto)]

ghost use Rattle.std.specs.Prelude.{◌≡◌, ◌↔◌, ◌+◌, ◌*◌, ◌≤◌, length};
ghost use Rattle.multiples.specs.Rows.{Shifted};

// Zero where the n words behind the n words from place `at` on are those with y added.
pub fn differences(words: &[u64], at: usize, n: usize, y: u64) -> u64
    requires { at + n + n ≤ length words.now }
    ensures { (result ≡ 0) ↔ Shifted at (at + n) n y words.now words.now }
{
    let next = at + n;
    let mut sum: u64 = 0;
    for i in 0..n {
        sum |= words[next + i] ^ words[at + i] ^ y;
    }
    sum
}

// Three doublings in one pass, which reads each word once: zero where the n words behind the n words from place `at` on are those with y added,
// the 2·n words behind these 2·n are those with z added, and the 4·n words behind these 4·n are those with v added.
pub fn differences_of_eight(words: &[u64], at: usize, n: usize, y: u64, z: u64, v: u64) -> u64
    requires { at + n * 2 * 2 * 2 ≤ length words.now }
    ensures { (result ≡ 0) ↔ (Shifted at (at + n) n y words.now words.now
        × (Shifted at (at + n * 2) (n * 2) z words.now words.now
        × Shifted at (at + n * 2 * 2) (n * 2 * 2) v words.now words.now)) }
{
    let at1 = at + n;
    let at2 = at1 + n;
    let at3 = at2 + n;
    let at4 = at3 + n;
    let at5 = at4 + n;
    let at6 = at5 + n;
    let at7 = at6 + n;
    let mut sum: u64 = 0;
    for i in 0..n {
        let w0 = words[at + i];
        let w1 = words[at1 + i];
        let w2 = words[at2 + i];
        let w3 = words[at3 + i];
        let once = w1 ^ w0 ^ y;
        let twice = (w2 ^ w0 ^ z) | (w3 ^ w1 ^ z);
        let low = (words[at4 + i] ^ w0 ^ v) | (words[at5 + i] ^ w1 ^ v);
        let high = (words[at6 + i] ^ w2 ^ v) | (words[at7 + i] ^ w3 ^ v);
        sum |= once | twice | low | high;
    }
    sum
}
