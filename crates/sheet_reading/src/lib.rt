// Reading a page sheet. An answer of `read` holds a `Key`.
#![tactic(auto)]

ghost use Rattle.std.specs.Prelude.{◌≡◌, ◌++◌, ◌*◌, ◌≤◌, length, drop};
ghost use Rattle.refusals.specs.Answers.{told, reply};
ghost use Rattle.big_endian.specs.Numbers.{numbers_at};
ghost use Rattle.sheets.specs.Sheets.{read_sheet, read_pages};
ghost use Rattle.sheets.specs.Answers.{sheet_read};

use refusals::Refusal;
use sheets::Sheet;

// Reads a sheet. Numbers 14 (size, letters, version, least size, limit of lengths), 1, 2, 12, 14 (total, fingerprints, joining).
pub fn read(sheet: &[u8]) -> Result<Sheet, Refusal>
    ensures { told result ≡ sheet_read (read_sheet sheet.now) }
{
    let x = sheet_opening::open_sheet(sheet)?;
    Ok(x.numbers)
}

// The first n fingerprints into the first n places.
fn copy_fields(lent: &mut [u64], fields: &[u8], n: usize)
    requires { (n ≤ length lent.old) × (8 * n ≤ length fields.now) }
    ensures { lent.new ≡ numbers_at 0 8 n fields.now ++ drop n lent.old }
{
    for i in 0..n {
        lent[i] = big_endian::eight_at(fields, 8 * i);
    }
}

// The page fingerprints of a sheet into lent places: the first ones, as far as the places reach.
// Numbers 14, 1, 2, 12, 14, as above.
pub fn read_pages(sheet: &[u8], lent: &mut [u64]) -> Result<(), Refusal>
    ensures { reply lent.new result ≡ read_pages sheet.now lent.old }
{
    let x = sheet_opening::open_sheet(sheet)?;
    let n = lent.len().min(x.numbers.pages as usize);
    copy_fields(lent, sheet_layout::page_fields(sheet, x.place), n);
    Ok(())
}
