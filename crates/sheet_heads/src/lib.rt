// What stands in front of a sheet's fingerprints: tested and read at once, and written. These functions are for the project's own crates: what they
// require, every caller proves.
#![tactic(auto)]

ghost use Rattle.std.specs.Prelude.{◌≡◌, cond, ◌||◌, ◌+◌, ◌≤◌, ltb, length};
ghost use Rattle.std.proofs.lemmas.List.Edits.{sets};
ghost use Rattle.refusals.specs.Refusals.{longest};
ghost use Rattle.big_endian.specs.Numbers.{number_at, bytes_in};
ghost use Rattle.sheets.specs.Layout.{version_in, newest, layouts, layout_of, field_widths, page_place, sheet_length, key_from, head_of, length_in};
ghost use Rattle.sheets.specs.Sheets.{head_wrong};
ghost use Rattle.sheet_layout.specs.Laid.{LaidOut};
ghost use Rattle.sheet_heads.specs.Heads.{HeaderOf, head_only};

use acceptance::Key;
use sheet_layout::Fields;

// The letters GFP.
const LETTERS: u64 = 0x474650;

// The bytes that a sheet has at least, whatever its version.
const LEAST: usize = 27;

// The numbers in front of the fingerprints: the version's, the key, the file's length in bits and the page size in bytes; and of the version, where
// the fingerprints begin and whether a last page is filled up.
#[derive(Clone, Copy)]
pub struct Head {
    pub version: u64,
    pub key: Key,
    pub length: u64,
    pub size: u64,
    pub place: usize,
    pub filled: bool,
}

// The key, as a pair or as a number.
fn key_in(sheet: &[u8], paired: bool) -> Key
    requires { 5 + cond paired 9 8 ≤ length sheet.now }
    ensures { result ≡ key_from paired (number_at 5 (cond paired 9 8) sheet.now) }
{
    if paired {
        return Key {
            degree: big_endian::number_at(
                sheet,
                sheet_layout::KEY_PLACE,
                sheet_layout::DEGREE_WIDTH,
            ) as u32,
            word: big_endian::number_at(sheet, sheet_layout::WORD_PLACE, 8),
        };
    }
    acceptance::key_of(big_endian::number_at(sheet, sheet_layout::KEY_PLACE, 8))
}

// The numbers in the fields of a version, where its least size and the limit of lengths are right.
fn head_in(sheet: &[u8], version: u64, v: Fields) -> Option<Head>
    requires { (version ≡ version_in sheet.now) × LaidOut (layout_of version) v }
    ensures { HeaderOf sheet.now
        (ltb (length sheet.now) (sheet_length (layout_of version) 0) || ltb longest (length_in (layout_of version) sheet.now)) result }
{
    let place = v.pages_place();
    if sheet.len() < place + 8 {
        return None;
    }
    let length = v.unit * big_endian::number_at(sheet, v.length_place(), v.length);
    if refusals::LONGEST < length {
        return None;
    }
    let key = key_in(sheet, v.paired);
    let size = big_endian::number_at(sheet, v.size_place(), v.size);
    Some(Head {
        version,
        key,
        length,
        size,
        place,
        filled: v.filled,
    })
}

// The head of a sheet, where size, letters, version, the version's least size and the limit of lengths are right; else none.
pub fn open_head(sheet: &[u8]) -> Option<Head>
    ensures { HeaderOf sheet.now (head_wrong layouts sheet.now) result }
{
    if sheet.len() < LEAST {
        return None;
    }
    if big_endian::number_at(sheet, 0, sheet_layout::LETTERS_WIDTH) != LETTERS {
        return None;
    }
    let version = big_endian::number_at(
        sheet,
        sheet_layout::LETTERS_WIDTH,
        sheet_layout::VERSION_WIDTH,
    );
    let v = sheet_layout::known_fields(version)?;
    head_in(sheet, version, v)
}

// Writes what stands in front of the fingerprints, in the fields of the newest version, which holds the key as a pair.
pub fn put_head(buffer: &mut [u8], key: Key, n: u64, size: u64)
    requires { page_place (layout_of newest.version) 0 ≤ length buffer.old }
    ensures { buffer.new ≡ sets buffer.old 0 (bytes_in (field_widths (layout_of newest.version)) (head_of (head_only key n size))) }
{
    let v = sheet_layout::newest();
    let counted = n / v.unit;
    let degree_place = sheet_layout::KEY_PLACE;
    let word_place = sheet_layout::WORD_PLACE;
    big_endian::put(buffer, 0, sheet_layout::LETTERS_WIDTH, LETTERS);
    big_endian::put(
        buffer,
        sheet_layout::LETTERS_WIDTH,
        sheet_layout::VERSION_WIDTH,
        sheet_layout::NEWEST,
    );
    big_endian::put(
        buffer,
        degree_place,
        sheet_layout::DEGREE_WIDTH,
        u64::from(key.degree),
    );
    big_endian::put(buffer, word_place, 8, key.word);
    big_endian::put(buffer, v.length_place(), v.length, counted);
    big_endian::put(buffer, v.size_place(), v.size, size);
}
