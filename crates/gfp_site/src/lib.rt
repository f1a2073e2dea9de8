// The Site level: its functions on marks, for C. Each answers 0 or the refusal's number; on refusal every lent place and buffer keeps what it held. Its
// functions for page sheets and the search stand in the crate gfp_sheets, the guarantee over lists of calls in the crate site_book.
#![tactic(auto)]

ghost use Rattle.std.specs.Prelude.{◌≡◌};
ghost use Rattle.refusals.specs.Refusals.{number_of, state_of};
ghost use Rattle.files.specs.Files.{as_part};
ghost use Rattle.c_interface.specs.Interface.{key_at, mark_at};
ghost use Rattle.compose.specs.Composing.{join_behind, join_in_front, replace_page};
ghost use Rattle.compose.specs.PlainMarks.{join_plain_behind, join_plain_in_front};

use files::Mark;
use marks::Running;

// The file of the mark (other_fingerprint, other_bits) goes behind the file of the mark in the two places; lengths are in bits.
// Numbers 1, 2, 7, 8.
#[unsafe(no_mangle)]
pub extern "C" fn gfp_join_behind(
    degree: u32,
    word: u64,
    fingerprint: &mut u64,
    bits: &mut u64,
    other_fingerprint: u64,
    other_bits: u64,
) -> u32
    ensures { (result ≡ number_of (join_behind (key_at degree word) (mark_at fingerprint.old bits.old) (mark_at other_fingerprint other_bits)))
        × (mark_at fingerprint.new bits.new ≡ state_of (join_behind (key_at degree word) (mark_at fingerprint.old bits.old) (mark_at other_fingerprint other_bits))) }
{
    let m: Running = c_interface::running(degree, word, *fingerprint, *bits);
    let behind = Mark {
        fingerprint: other_fingerprint,
        length: other_bits,
    };
    c_interface::store(compose::join_behind(m, behind), fingerprint, bits)
}

// The file of the mark (other_fingerprint, other_bits) goes in front; lengths are in bits. Numbers 1, 2, 7, 8.
#[unsafe(no_mangle)]
pub extern "C" fn gfp_join_in_front(
    degree: u32,
    word: u64,
    fingerprint: &mut u64,
    bits: &mut u64,
    other_fingerprint: u64,
    other_bits: u64,
) -> u32
    ensures { (result ≡ number_of (join_in_front (key_at degree word) (mark_at fingerprint.old bits.old) (mark_at other_fingerprint other_bits)))
        × (mark_at fingerprint.new bits.new ≡ state_of (join_in_front (key_at degree word) (mark_at fingerprint.old bits.old) (mark_at other_fingerprint other_bits))) }
{
    let m: Running = c_interface::running(degree, word, *fingerprint, *bits);
    let front = Mark {
        fingerprint: other_fingerprint,
        length: other_bits,
    };
    c_interface::store(compose::join_in_front(m, front), fingerprint, bits)
}

// The same of plain marks: the file of the other mark goes behind. Numbers 1, 2, 7, 8.
#[unsafe(no_mangle)]
pub extern "C" fn gfp_join_plain_behind(
    degree: u32,
    word: u64,
    fingerprint: &mut u64,
    bits: &mut u64,
    other_fingerprint: u64,
    other_bits: u64,
) -> u32
    ensures { (result ≡ number_of (join_plain_behind (key_at degree word) (mark_at fingerprint.old bits.old) (mark_at other_fingerprint other_bits)))
        × (mark_at fingerprint.new bits.new ≡ state_of (join_plain_behind (key_at degree word) (mark_at fingerprint.old bits.old) (mark_at other_fingerprint other_bits))) }
{
    let m: Running = c_interface::running(degree, word, *fingerprint, *bits);
    let other = Mark {
        fingerprint: other_fingerprint,
        length: other_bits,
    };
    c_interface::store(compose::join_plain_behind(m, other), fingerprint, bits)
}

// The same of plain marks: the file of the other mark goes in front. Numbers 1, 2, 7, 8.
#[unsafe(no_mangle)]
pub extern "C" fn gfp_join_plain_in_front(
    degree: u32,
    word: u64,
    fingerprint: &mut u64,
    bits: &mut u64,
    other_fingerprint: u64,
    other_bits: u64,
) -> u32
    ensures { (result ≡ number_of (join_plain_in_front (key_at degree word) (mark_at fingerprint.old bits.old) (mark_at other_fingerprint other_bits)))
        × (mark_at fingerprint.new bits.new ≡ state_of (join_plain_in_front (key_at degree word) (mark_at fingerprint.old bits.old) (mark_at other_fingerprint other_bits))) }
{
    let m: Running = c_interface::running(degree, word, *fingerprint, *bits);
    let other = Mark {
        fingerprint: other_fingerprint,
        length: other_bits,
    };
    c_interface::store(compose::join_plain_in_front(m, other), fingerprint, bits)
}

// The new page stands where the old one stood, from the byte at the given place on. Each page comes with the used bits of its final byte.
// Numbers 1, 2, 7, 8, 9, 10, 19.
#[unsafe(no_mangle)]
pub extern "C" fn gfp_replace_page(
    degree: u32,
    word: u64,
    fingerprint: &mut u64,
    bits: &mut u64,
    place: u64,
    old_page: &[u8],
    old_used: u32,
    new_page: &[u8],
    new_used: u32,
) -> u32
    ensures { (result ≡ number_of (replace_page (key_at degree word) (mark_at fingerprint.old bits.old) place
        (as_part old_page.now old_used) (as_part new_page.now new_used)))
        × (mark_at fingerprint.new bits.new ≡ state_of (replace_page (key_at degree word) (mark_at fingerprint.old bits.old) place
        (as_part old_page.now old_used) (as_part new_page.now new_used))) }
{
    let m: Running = c_interface::running(degree, word, *fingerprint, *bits);
    c_interface::store(
        compose::replace_page(m, place, old_page, old_used, new_page, new_used),
        fingerprint,
        bits,
    )
}
