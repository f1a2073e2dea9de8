// Checking a file against a page sheet.
#![tactic(auto)]

ghost use Rattle.std.specs.Prelude.{◌≡◌, ◌+◌, ◌*◌, ◌≤◌, min};
ghost use Rattle.files.specs.Files.{as_part};
ghost use Rattle.sheets.specs.Sheets.{check_sheet};
ghost use Rattle.sheets.specs.Answers.{changed_range, check_answer, change_answer};
ghost use Rattle.sheets.specs.Inner.{ReadAs, comparison};

use refusals::Refusal;
use sheet_opening::OpenSheet;
use sheets::{Comparison, PageBytes};

// A file against a sheet that was opened as x: its first changed page is counted from 0. Numbers 7, 19.
fn compare(sheet: &[u8], x: OpenSheet, file: &[u8], used: u32) -> Result<Comparison<u32>, Refusal>
    requires { ReadAs sheet.now x.numbers }
    ensures { check_answer result ≡ comparison sheet.now (as_part file.now used) }
{
    let y = x.numbers;
    if refusals::LONGEST_BYTES < file.len() as u64 {
        return Err(Refusal::TooLong);
    }
    if files::is_misused(file, used) {
        return Err(Refusal::FinalByte);
    }
    if files::part_length(file, used) != y.length {
        return Ok(Comparison::OtherLength);
    }
    let pages = sheet_layout::page_fields(sheet, x.place);
    let mut none = [0u8; 0];
    let p = x.p;
    let size = y.size as usize;
    let same = sheet_pass::over_pages(&mut none, Some(pages), p, size, x.filled, file, used) as u64;
    if same < y.pages {
        return Ok(Comparison::Page(same as u32));
    }
    Ok(Comparison::Same)
}

// Checks a file against a sheet: the first page whose fingerprint differs, counted from 0. Numbers 14, 1, 2, 12, 14 of reading, then 7, 19.
pub fn check(sheet: &[u8], file: &[u8], used: u32) -> Result<Comparison<u32>, Refusal>
    ensures { check_answer result ≡ check_sheet sheet.now (as_part file.now used) }
{
    let x = sheet_opening::open_sheet(sheet)?;
    compare(sheet, x, file, used)
}

// The bytes of page i, by the page size and the file's bytes.
fn bytes_of_page(i: u32, size: u64, n: u64) -> PageBytes
    requires { size ≤ 4096 }
    ensures { result ≡ record { start = i * size; end = min (i * size + size) n } }
{
    let from = u64::from(i) * size;
    let end = from + size;
    PageBytes {
        start: from,
        end: end.min(n),
    }
}

// The bytes of the first changed page, where the check names a page.
// Numbers 14, 1, 2, 12, 14, 7, 19, as above.
pub fn first_changed_range(
    sheet: &[u8],
    file: &[u8],
    used: u32,
) -> Result<Comparison<PageBytes>, Refusal>
    ensures { change_answer result ≡ changed_range sheet.now (as_part file.now used) }
{
    let x = sheet_opening::open_sheet(sheet)?;
    let size = x.numbers.size;
    let found = compare(sheet, x, file, used)?;
    // (document 01 names this form: the answer is taken apart, and only a page goes on)
    let Comparison::Page(i) = found else {
        return match found {
            Comparison::Same => Ok(Comparison::Same),
            _ => Ok(Comparison::OtherLength),
        };
    };
    Ok(Comparison::Page(bytes_of_page(i, size, file.len() as u64)))
}
