// Joining marks and changing a page in a file's mark, without the files.
#![tactic(auto)]

ghost use Rattle.std.specs.Prelude.{◌≡◌, not, ◌+◌, ◌*◌, ◌<◌, ltb};
ghost use Rattle.refusals.specs.Refusals.{first_of};
ghost use Rattle.acceptance.specs.Keys.{polynomial_of};
ghost use Rattle.files.specs.Files.{as_part, joined_from, replaced};
ghost use Rattle.marks.specs.Answers.{mark_in, fed, fed_under};
ghost use Rattle.compose.specs.Composing.{marks_tests, join_tests, join_behind_from, join_behind, join_in_front_from, join_in_front};
ghost use Rattle.compose.specs.Composing.{page_tests, replace_page};
ghost use Rattle.compose.specs.PlainMarks.{join_plain_behind, join_plain_in_front};

use files::Mark;
use marks::{OpenMark, RefusedMark, Running};
use refusals::Refusal;

// Two marks joined, under an opened key. The running mark goes back where they are refused.
fn join_under(open: OpenMark, start: u64, first: Mark, second: Mark) -> Result<Running, RefusedMark>
    requires { start < 2 }
    ensures { fed result ≡ fed_under open.mark.key (first_of (marks_tests (polynomial_of open.mark.key) first second) (mark_in open.mark)
        (joined_from start (polynomial_of open.mark.key) first second)) }
{
    let p = open.p;
    let m = open.mark;
    let f = first.fingerprint;
    let g = second.fingerprint;
    if !refusals::fits(first.length, second.length) {
        return Err(m.refused(Refusal::TooLong));
    }
    if !gf2::is_residue(p, f) || !gf2::is_residue(p, g) {
        return Err(m.refused(Refusal::MarkNotReduced));
    }
    let joined = files::joined_residue(p, start, f, g, second.length);
    Ok(m.with_mark(joined, first.length + second.length))
}

// Two marks joined.
fn join(start: u64, m: Running, first: Mark, second: Mark) -> Result<Running, RefusedMark>
    requires { start < 2 }
    ensures { fed result ≡ fed_under m.key (first_of (join_tests m.key first second) (mark_in m) (joined_from start (polynomial_of m.key) first second)) }
{
    join_under(m.opened()?, start, first, second)
}

// Number 10 does not apply to a page of n bits, from the byte at a place on, in a file of so many bits. The page's end is not made: it might not
// fit 64 bits.
fn page_within(length: u64, place: u64, n: u64) -> bool
    ensures { result ≡ not (ltb length (8 * place + n)) }
{
    if length < n {
        return false;
    }
    let last = length - n;
    place <= last / 8
}

// A page changed, under an opened key.
fn replace(
    open: OpenMark,
    place: u64,
    old: &[u8],
    old_used: u32,
    new: &[u8],
    new_used: u32,
) -> Result<Running, RefusedMark>
    ensures { fed result ≡ fed_under open.mark.key (first_of (page_tests (polynomial_of open.mark.key) (mark_in open.mark) place
        (as_part old.now old_used) (as_part new.now new_used)) (mark_in open.mark)
        (replaced (polynomial_of open.mark.key) (mark_in open.mark) place (as_part old.now old_used) (as_part new.now new_used))) }
{
    let p = open.p;
    let m = open.mark;
    let n = files::part_length(old, old_used);
    let other = files::part_length(new, new_used);
    if !refusals::within(m.length, n, other) {
        return Err(m.refused(Refusal::TooLong));
    }
    if !gf2::is_residue(p, m.fingerprint) {
        return Err(m.refused(Refusal::MarkNotReduced));
    }
    if n != other {
        return Err(m.refused(Refusal::PageLengthsDiffer));
    }
    if !page_within(m.length, place, n) {
        return Err(m.refused(Refusal::PagePastEnd));
    }
    if files::is_misused(old, old_used) || files::is_misused(new, new_used) {
        return Err(m.refused(Refusal::FinalByte));
    }
    let change = feeding::page_difference(p, old, new, old_used);
    let behind = m.length - n - 8 * place;
    let replaced = files::replaced_residue(p, m.fingerprint, change, behind);
    Ok(m.with_mark(replaced, m.length))
}

// The other mark's file goes behind the running mark's, both with one start.
fn join_behind_from(start: u64, m: Running, other: Mark) -> Result<Running, RefusedMark>
    requires { start < 2 }
    ensures { fed result ≡ fed_under m.key (join_behind_from start m.key (mark_in m) other) }
{
    join(start, m, m.mark(), other)
}

// The other mark's file goes in front of the running mark's, both with one start.
fn join_in_front_from(start: u64, m: Running, other: Mark) -> Result<Running, RefusedMark>
    requires { start < 2 }
    ensures { fed result ≡ fed_under m.key (join_in_front_from start m.key (mark_in m) other) }
{
    join(start, m, other, m.mark())
}

// The other mark's file goes behind the running mark's. Numbers 1, 2, 7, 8.
pub fn join_behind(m: Running, other: Mark) -> Result<Running, RefusedMark>
    ensures { fed result ≡ fed_under m.key (join_behind m.key (mark_in m) other) }
{
    join_behind_from(1, m, other)
}

// The other mark's file goes in front of the running mark's. Numbers 1, 2, 7, 8.
pub fn join_in_front(m: Running, other: Mark) -> Result<Running, RefusedMark>
    ensures { fed result ≡ fed_under m.key (join_in_front m.key (mark_in m) other) }
{
    join_in_front_from(1, m, other)
}

// The same of plain marks: the other mark's file goes behind. Numbers 1, 2, 7, 8.
pub fn join_plain_behind(m: Running, other: Mark) -> Result<Running, RefusedMark>
    ensures { fed result ≡ fed_under m.key (join_plain_behind m.key (mark_in m) other) }
{
    join_behind_from(0, m, other)
}

// The same of plain marks: the other mark's file goes in front. Numbers 1, 2, 7, 8.
pub fn join_plain_in_front(m: Running, other: Mark) -> Result<Running, RefusedMark>
    ensures { fed result ≡ fed_under m.key (join_plain_in_front m.key (mark_in m) other) }
{
    join_in_front_from(0, m, other)
}

// The new page stands where the old one stood, from the byte at the given place on, each with the used bits of its final byte. Numbers 1, 2, 7, 8,
// 9, 10, 19.
pub fn replace_page(
    m: Running,
    place: u64,
    old: &[u8],
    old_used: u32,
    new: &[u8],
    new_used: u32,
) -> Result<Running, RefusedMark>
    ensures { fed result ≡ fed_under m.key (replace_page m.key (mark_in m) place (as_part old.now old_used)
        (as_part new.now new_used)) }
{
    replace(m.opened()?, place, old, old_used, new, new_used)
}
