// Writing a page sheet.
#![tactic(auto)]

ghost use Rattle.std.specs.Prelude.{◌≡◌, false, ◌++◌, ◌+◌, ◌*◌, ◌≤◌, ◌<◌, ◌^◌, length, drop};
ghost use Rattle.std.proofs.lemmas.List.Edits.{sets};
ghost use Rattle.gf2.specs.Moduli.{polynomial, Proper};
ghost use Rattle.refusals.specs.Answers.{told, reply};
ghost use Rattle.acceptance.specs.Opened.{Opened};
ghost use Rattle.files.specs.Files.{fingerprint, as_part, part_length, part_bits, misused};
ghost use Rattle.big_endian.specs.Numbers.{bytes_of, fields_of};
ghost use Rattle.sheets.specs.Layout.{newest, layout_of, sheet_length, page_count, sheet_bytes};
ghost use Rattle.sheets.specs.Sheets.{page_fingerprints, contents_of, length_for, write_sheet};

use acceptance::Key;
use gf2::Modulus;
use refusals::Refusal;

// Writes all fingerprints, of a file of n bits: the pages', and behind them the file's, which is these joined, the last with its own length.
fn put_fingerprints(fields: &mut [u8], p: Modulus, size: u64, file: &[u8], used: u32, n: u64)
    requires { Proper p × (8 ≤ p.degree) × (16 ≤ size) × (size ≤ 4096) × (length file.now < 2 ^ 32)
        × (8 * page_count size (length file.now) + 8 ≤ length fields.old) × (misused (as_part file.now used) ≡ false)
        × (n ≡ part_length (as_part file.now used)) }
    ensures { fields.new ≡ sets fields.old 0
        (fields_of 8 (page_fingerprints (layout_of newest.version) (polynomial p) (8 * size) (page_count size (length file.now))
        (part_bits (as_part file.now used)))
        ++ bytes_of 8 (fingerprint (polynomial p) (part_bits (as_part file.now used)))) }
{
    let count = sheet_pass::over_pages(fields, None, p, size as usize, false, file, used);
    let joined = sheet_joining::pages_joined(fields, p, size, n, count as u64, false);
    big_endian::put(fields, 8 * count, 8, joined.mark);
}

// Writes the sheet; the buffer's further bytes keep their value.
fn put_sheet(buffer: &mut [u8], key: Key, p: Modulus, size: u64, file: &[u8], used: u32)
    requires { Opened key p × (16 ≤ size) × (size ≤ 4096) × (length file.now < 2 ^ 32)
        × (sheet_length (layout_of newest.version) (page_count size (length file.now)) ≤ length buffer.old)
        × (misused (as_part file.now used) ≡ false) }
    ensures { buffer.new ≡ sheet_bytes (contents_of newest.version key size (part_bits (as_part file.now used)))
        ++ drop (sheet_length (layout_of newest.version) (page_count size (length file.now))) buffer.old }
{
    let n = files::part_length(file, used);
    sheet_heads::put_head(buffer, key, n, size);
    let from = sheet_layout::pages_place();
    put_fingerprints(&mut buffer[from..], p, size, file, used, n);
}

// The bytes of the sheet of a file of n bytes, an unfinished one counted, with pages of the given size. Numbers 7, 12.
pub fn length(n: u64, size: u64) -> Result<u64, Refusal>
    ensures { told result ≡ length_for n size }
{
    if !refusals::bytes_fit(n) {
        return Err(Refusal::TooLong);
    }
    if !sheet_layout::size_right(size) {
        return Err(Refusal::PageSize);
    }
    let count = sheet_layout::page_count(size, n);
    Ok(sheet_layout::sheet_length(sheet_layout::pages_place(), count))
}

// Writes the sheet of a file. Numbers 1, 2, 7, 12, 13, 19.
pub fn write(key: Key, size: u64, file: &[u8], used: u32, buffer: &mut [u8]) -> Result<(), Refusal>
    ensures { reply buffer.new result ≡ write_sheet key size (as_part file.now used) buffer.old }
{
    let p = keys::test(key)?;
    let needed = length(file.len() as u64, size)?;
    if (buffer.len() as u64) < needed {
        return Err(Refusal::BufferShort);
    }
    if files::is_misused(file, used) {
        return Err(Refusal::FinalByte);
    }
    put_sheet(buffer, key, p, size, file, used);
    Ok(())
}
