// The search for a pattern in a text by a rolling fingerprint.
#![tactic(auto)]

ghost use Rattle.std.specs.Prelude.{◌≡◌, ◌*◌, ◌≤◌, ◌<◌, length};
ghost use Rattle.lists.specs.Lists.{overlay};
ghost use Rattle.gf2.specs.Moduli.{polynomial, Proper};
ghost use Rattle.refusals.specs.Answers.{told};
ghost use Rattle.refusals.specs.Refusals.{first_of, state_of, longest};
ghost use Rattle.rolling.specs.Rolling.{residue, key_of, ResidueAt};
ghost use Rattle.search.specs.Searching.{places as places_of, counts, text_tests, search, places_after};

use acceptance::Key;
pub use comparing::Counts;
use gf2::Modulus;
use refusals::Refusal;
use rolling::Windows;

// Block by block, each as long as `flag_block` makes it: which windows have the pattern's residue, and then which of these have its bytes.
fn search_blocks(w: Windows<'_>, pattern: &[u8], first: u64, places: &mut [u32]) -> Counts
    requires { (w.m ≡ length pattern.now)
        × (w.wanted ≡ residue (key_of w) pattern.now)
        × ResidueAt w 0 first
        × (length pattern.now ≤ length w.text.now)
        × (8 * length w.text.now ≤ longest) }
    ensures { (result ≡ counts (key_of w.entry) w.entry.text.now pattern.now)
        × (places.new ≡ overlay (places_of w.entry.text.now pattern.now) places.old) }
{
    let mut flags: [bool; 1024] = [false; 1024];
    let windows = w.text.len() - w.m + 1;
    let mut found = Counts {
        places: 0,
        alarms: 0,
    };
    let mut g = first;
    let mut from: usize = 0;
    while from < windows {
        let b = windows::flag_block(w, from, g, &mut flags);
        found = comparing::compare(w.text, pattern, &flags, from, b.size, found, places);
        from += b.size;
        g = b.next;
    }
    found
}

// The search proper, under a modulus: its tables, and the residues to begin with.
fn search_text(p: Modulus, text: &[u8], pattern: &[u8], places: &mut [u32]) -> Counts
    requires { Proper p × (8 ≤ p.degree) × (0 < length pattern.now) × (length pattern.now ≤ length text.now) × (8 * length text.now ≤ longest) }
    ensures { (result ≡ counts (polynomial p) text.now pattern.now)
        × (places.new ≡ overlay (places_of text.now pattern.now) places.old) }
{
    let mut reduce: [u64; 256] = [0; 256];
    multiples::fill_row(&mut reduce, 0, 8, p, p.low);
    let begin = rolling::read_first(p, &reduce, text, pattern);
    let mut outgoing: [u64; 256] = [0; 256];
    multiples::fill_row(&mut outgoing, 0, 8, p, begin.shift);
    let w = Windows {
        modulus: p,
        m: pattern.len(),
        wanted: begin.wanted,
        text,
        reduce: &reduce,
        outgoing: &outgoing,
    };
    search_blocks(w, pattern, begin.first, places)
}

// The search under an opened key. Numbers 7, 11.
fn search_under(
    p: Modulus,
    text: &[u8],
    pattern: &[u8],
    places: &mut [u32],
) -> Result<Counts, Refusal>
    requires { Proper p × (8 ≤ p.degree) }
    ensures { (told result ≡ first_of (text_tests text.now pattern.now) tt
        (counts (polynomial p) text.now pattern.now))
        × (places.new ≡ state_of (first_of (text_tests text.now pattern.now) places.old
        (overlay (places_of text.now pattern.now) places.old))) }
{
    let fit = refusals::bytes_fit(text.len() as u64) & refusals::bytes_fit(pattern.len() as u64);
    if !fit {
        return Err(Refusal::TooLong);
    }
    if pattern.len() == 0 {
        return Err(Refusal::EmptyPattern);
    }
    if text.len() < pattern.len() {
        return Ok(Counts {
            places: 0,
            alarms: 0,
        });
    }
    Ok(search_text(p, text, pattern, places))
}

// All places of the pattern in the text, rising, overlaps included: the first ones into the lent places, as far as they reach.
// Numbers 1, 2, 7, 11.
pub fn search(key: Key, text: &[u8], pattern: &[u8], places: &mut [u32]) -> Result<Counts, Refusal>
    ensures { (told result ≡ search key text.now pattern.now)
        × (places.new ≡ places_after key text.now pattern.now places.old) }
{
    let p = keys::test(key)?;
    search_under(p, text, pattern, places)
}
