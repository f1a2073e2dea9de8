// The Site level: its functions for page sheets, and the search, which is faster where it is compiled beside them (docs/DECISIONS.md), for C. Each answers 0
// or the refusal's number; on refusal every lent place and buffer keeps what it held.
#![tactic(auto)]

ghost use Rattle.std.specs.Prelude.{◌≡◌, [], ◌∷◌};
ghost use Rattle.refusals.specs.Refusals.{number_of, state_of, value_or, mapped};
ghost use Rattle.files.specs.Files.{as_part};
ghost use Rattle.c_interface.specs.Interface.{key_at};
ghost use Rattle.search.specs.Searching.{search, places_after};
ghost use Rattle.comparing.specs.declared.Counts.{Counts};
ghost use Rattle.sheets.specs.Layout.{contents_in};
ghost use Rattle.sheets.specs.Sheets.{write_sheet, read_sheet, read_pages, check_sheet, length_for};
ghost use Rattle.sheets.specs.Outputs.{numbers_of, outcome_in, range_in};
ghost use Rattle.sheets.specs.declared.Sheet.{Sheet};

use acceptance::Key;
use sheets::Comparison;

// The sheet of a file, with pages of the given size, into the lent bytes; further bytes keep their value. The file comes with the used bits of
// its final byte. Numbers 1, 2, 7, 12, 13, 19.
#[unsafe(no_mangle)]
pub extern "C" fn gfp_write_sheet(
    degree: u32,
    word: u64,
    page_size: u64,
    file: &[u8],
    used: u32,
    sheet: &mut [u8],
) -> u32
    ensures { (result ≡ number_of (write_sheet (key_at degree word) page_size (as_part file.now used) sheet.old))
        × (sheet.new ≡ state_of (write_sheet (key_at degree word) page_size (as_part file.now used) sheet.old)) }
{
    let key = Key { degree, word };
    refusals::number_of(sheet_writing::write(key, page_size, file, used, sheet))
}

// The numbers of a sheet into seven places; the file's length in bits. Numbers 14 (size, letters, version, least size, limit of lengths), 1, 2, 12,
// 14 (total, fingerprints, joining), in this order.
#[unsafe(no_mangle)]
pub extern "C" fn gfp_read_sheet(
    sheet: &[u8],
    version: &mut u32,
    degree: &mut u32,
    word: &mut u64,
    bits: &mut u64,
    page_size: &mut u64,
    pages: &mut u64,
    fingerprint: &mut u64,
) -> u32
    ensures { (result ≡ number_of (read_sheet sheet.now))
        × (◌≡◌ {A = Sheet}
        (record {
          version = version.new;
          key = key_at degree.new word.new;
          length = bits.new;
          size = page_size.new;
          pages = pages.new;
          fingerprint = fingerprint.new;
        })
        (value_or
        (record {
          version = version.old;
          key = key_at degree.old word.old;
          length = bits.old;
          size = page_size.old;
          pages = pages.old;
          fingerprint = fingerprint.old;
        })
        (mapped numbers_of (read_sheet sheet.now)))) }
{
    match sheet_reading::read(sheet) {
        Ok(x) => {
            *version = x.version as u32;
            *degree = x.key.degree;
            *word = x.key.word;
            *bits = x.length;
            *page_size = x.size;
            *pages = x.pages;
            *fingerprint = x.fingerprint;
            0
        }
        Err(r) => refusals::number(r),
    }
}

// The page fingerprints of a sheet into lent places, the first ones as far as they reach; further places keep their value.
// Numbers 14, 1, 2, 12, 14, in this order, as above.
#[unsafe(no_mangle)]
pub extern "C" fn gfp_read_pages(sheet: &[u8], fingerprints: &mut [u64]) -> u32
    ensures { (result ≡ number_of (read_pages sheet.now fingerprints.old))
        × (fingerprints.new ≡ state_of (read_pages sheet.now fingerprints.old)) }
{
    refusals::number_of(sheet_reading::read_pages(sheet, fingerprints))
}

// A file, with the used bits of its final byte, checked against a sheet: 0 for same, 1 for a page with its place, 2 for another length.
// Numbers 14, 1, 2, 12, 14, 7, 19, in this order.
#[unsafe(no_mangle)]
pub extern "C" fn gfp_check_file(
    sheet: &[u8],
    file: &[u8],
    used: u32,
    outcome: &mut u32,
    page: &mut u32,
) -> u32
    ensures { (result ≡ number_of (check_sheet sheet.now (as_part file.now used)))
        × (outcome.new ∷ page.new ∷ []
        ≡ value_or (outcome.old ∷ page.old ∷ []) (mapped outcome_in (check_sheet sheet.now (as_part file.now used)))) }
{
    let found = match sheet_checking::check(sheet, file, used) {
        Ok(found) => found,
        Err(r) => return refusals::number(r),
    };
    // (document 01 names this form: the answer is taken apart, and only a page goes on)
    let Comparison::Page(i) = found else {
        *page = 0;
        *outcome = match found {
            Comparison::Same => 0,
            _ => 2,
        };
        return 0;
    };
    *outcome = 1;
    *page = i;
    0
}

// The bytes of the first changed page of a file, from the first to before the last: outcome 0 for same, 1 for a page, 2 for another length;
// from and to are 0 where no page is named. Numbers 14, 1, 2, 12, 14, 7, 19, in this order.
#[unsafe(no_mangle)]
pub extern "C" fn gfp_changed_range(
    sheet: &[u8],
    file: &[u8],
    used: u32,
    outcome: &mut u32,
    from: &mut u64,
    to: &mut u64,
) -> u32
    ensures { (result ≡ number_of (check_sheet sheet.now (as_part file.now used)))
        × (outcome.new ∷ from.new ∷ to.new ∷ []
        ≡ value_or (outcome.old ∷ from.old ∷ to.old ∷ [])
        (mapped (range_in (contents_in sheet.now)) (check_sheet sheet.now (as_part file.now used)))) }
{
    match sheet_checking::first_changed_range(sheet, file, used) {
        Ok(Comparison::Same) => {
            *outcome = 0;
            *from = 0;
            *to = 0;
            0
        }
        Ok(Comparison::Page(bytes)) => {
            *outcome = 1;
            *from = bytes.start;
            *to = bytes.end;
            0
        }
        Ok(Comparison::OtherLength) => {
            *outcome = 2;
            *from = 0;
            *to = 0;
            0
        }
        Err(r) => refusals::number(r),
    }
}

// The bytes that the sheet of a file has, with pages of the given size: the file's length is in bytes, an unfinished one counted.
// Numbers 7, 12.
#[unsafe(no_mangle)]
pub extern "C" fn gfp_sheet_length(file_length: u64, page_size: u64, sheet_length: &mut u64) -> u32
    ensures { (result ≡ number_of (length_for file_length page_size))
        × (sheet_length.new ≡ value_or sheet_length.old (length_for file_length page_size)) }
{
    match sheet_writing::length(file_length, page_size) {
        Ok(n) => {
            *sheet_length = n;
            0
        }
        Err(r) => refusals::number(r),
    }
}

// All places of the pattern in the text, the first ones into the lent places; the numbers of places and of false alarms into count and alarms.
// Numbers 1, 2, 7, 11.
#[unsafe(no_mangle)]
pub extern "C" fn gfp_search(
    degree: u32,
    word: u64,
    text: &[u8],
    pattern: &[u8],
    places: &mut [u32],
    count: &mut u32,
    alarms: &mut u32,
) -> u32
    ensures { (result ≡ number_of (search (key_at degree word) text.now pattern.now))
        × (places.new ≡ places_after (key_at degree word) text.now pattern.now places.old)
        × (◌≡◌ {A = Counts} (record { places = count.new; alarms = alarms.new })
        (value_or (record { places = count.old; alarms = alarms.old }) (search (key_at degree word) text.now pattern.now))) }
{
    let key = Key { degree, word };
    match search::search(key, text, pattern, places) {
        Ok(found) => {
            *count = found.places;
            *alarms = found.alarms;
            0
        }
        Err(r) => refusals::number(r),
    }
}
