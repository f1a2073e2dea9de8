// A sheet tested and opened, once for each call that reads one: its numbers, its opened key, where its fingerprints begin and how its pages end.
// These functions are for the project's own crates: what they require, every caller proves.
#![tactic(auto)]

ghost use Rattle.std.specs.Prelude.{◌≡◌, false, cond, not, ◌-◌, ◌*◌, ◌^◌, ◌≤◌, ◌<◌, length};
ghost use Rattle.gf2.specs.Polynomials.{rem};
ghost use Rattle.gf2.specs.Moduli.{polynomial, Proper};
ghost use Rattle.refusals.specs.Refusals.{mapped};
ghost use Rattle.refusals.specs.Answers.{told};
ghost use Rattle.acceptance.specs.Opened.{Opened};
ghost use Rattle.sheets.specs.Layout.{layout_of, page_place, contents_in};
ghost use Rattle.sheets.specs.Sheets.{body_wrong, read_sheet};
ghost use Rattle.sheets.specs.Answers.{sheet_read};
ghost use Rattle.sheets.specs.Inner.{read_body};
ghost use Rattle.sheet_heads.specs.Heads.{HeadOf};
ghost use Rattle.sheet_opening.specs.Opening.{Sized};

use gf2::Modulus;
use refusals::Refusal;
use sheet_heads::Head;
use sheets::Sheet;

// A sheet that was read: its numbers, its opened key, where its fingerprints begin, and whether a last page is filled up.
#[derive(Clone, Copy)]
pub struct OpenSheet {
    pub numbers: Sheet,
    pub p: Modulus,
    pub place: usize,
    pub filled: bool,
    ghost opened: { Opened numbers.key p },
    ghost placed: { place ≡ page_place (layout_of numbers.version) 0 },
    ghost fills: { filled ≡ (layout_of numbers.version).filled },
}

// The file's fingerprint as the pages joined have to give it: with zeros behind it where they are filled up. `all` are the bits of the pages.
fn file_filled(p: Modulus, f: u64, filled: bool, all: u64, n: u64) -> u64
    requires { Proper p × (f < 2 ^ p.degree) × (n ≤ all) }
    ensures { result ≡ rem (polynomial p) (f * 2 ^ (cond filled (all - n) 0)) }
{
    if filled {
        return files::with_zeros(p, f, all - n);
    }
    f
}

// Are fingerprints and joining right, in a sheet with so many pages? `file` is the file's fingerprint.
fn body_right(sheet: &[u8], head: Head, p: Modulus, count: u64, file: u64) -> bool
    requires { HeadOf sheet.now head × (16 ≤ head.size) × (head.size ≤ 4096) × Opened head.key p × Sized sheet.now head count file }
    ensures { result ≡ not (body_wrong (length sheet.now) (contents_in sheet.now)) }
{
    let size = head.size;
    let n = head.length;
    let filled = head.filled;
    let fields = sheet_layout::page_fields(sheet, head.place);
    let joined = sheet_joining::pages_joined(fields, p, size, n, count, filled);
    if !gf2::is_residue(p, joined.bits | file) {
        return false;
    }
    joined.mark == file_filled(p, file, filled, 8 * size * count, n)
}

// What stands behind a head that is right, under its opened key. Numbers 12, 14 (total, fingerprints, joining).
fn open_under(p: Modulus, sheet: &[u8], head: Head) -> Result<OpenSheet, Refusal>
    requires { HeadOf sheet.now head × Opened head.key p }
    ensures { mapped (λ x. x.numbers) (told result) ≡ sheet_read (read_body sheet.now) }
{
    if !sheet_layout::size_right(head.size) {
        return Err(Refusal::PageSize);
    }
    let place = head.place;
    let count = sheet_layout::pages_for(head.size, head.length);
    if sheet.len() as u64 != sheet_layout::sheet_length(place, count) {
        return Err(Refusal::SheetMalformed);
    }
    let file = big_endian::eight_at(sheet, place + (8 * count) as usize);
    if !body_right(sheet, head, p, count, file) {
        return Err(Refusal::SheetMalformed);
    }
    let numbers = Sheet {
        version: head.version,
        key: head.key,
        length: head.length,
        size: head.size,
        pages: count,
        fingerprint: file,
    };
    Ok(OpenSheet {
        numbers,
        p,
        place,
        filled: head.filled,
    })
}

// Opens a sheet. Numbers 14 (size, letters, version, least size, limit of lengths), 1, 2, 12, 14 (total, fingerprints, joining).
pub fn open_sheet(sheet: &[u8]) -> Result<OpenSheet, Refusal>
    ensures { mapped (λ x. x.numbers) (told result) ≡ sheet_read (read_sheet sheet.now) }
{
    let head = sheet_heads::open_head(sheet).ok_or(Refusal::SheetMalformed)?;
    let p = keys::test(head.key)?;
    open_under(p, sheet, head)
}
