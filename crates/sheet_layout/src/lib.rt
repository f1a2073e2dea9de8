// The layout of a sheet in code, version by version: the fields in front of the fingerprints and where these begin, the bytes of a sheet and the
// number of pages. These functions are for the project's own crates: what they require, every caller proves.
#![tactic(auto)]

ghost use Rattle.std.specs.Prelude.{◌≡◌, false, ◌||◌, not, ◌+◌, ◌*◌, ◌≤◌, ◌<◌, ◌^◌, ltb, length, drop};
ghost use Rattle.refusals.specs.Refusals.{longest};
ghost use Rattle.sheets.specs.Layout.{newest, layout_of, page_place, page_count, pages_for};
ghost use Rattle.sheet_layout.specs.Laid.{LaidOut, FieldsOf};

// The letters GFP and the version's number stand in front of every sheet: their widths, and where the key begins.
pub const LETTERS_WIDTH: usize = 3;

pub const VERSION_WIDTH: usize = 2;

pub const KEY_PLACE: usize = LETTERS_WIDTH + VERSION_WIDTH;

// Where a key is held as a pair: the width of its degree, and where its word begins.
pub const DEGREE_WIDTH: usize = 1;

pub const WORD_PLACE: usize = KEY_PLACE + DEGREE_WIDTH;

// The version that is written.
pub const NEWEST: u64 = 4;

// A version: the width of each field behind the version's number, whether the key is a byte of its degree and its word, the bits that the
// length counts as one, and whether a last page that is not whole is filled up with zeros.
#[derive(Clone, Copy)]
pub struct Fields {
    pub key: usize,
    pub paired: bool,
    pub length: usize,
    pub size: usize,
    pub unit: u64,
    pub filled: bool,
}

impl Fields {
    // Where the length begins.
    pub fn length_place(self) -> usize
        requires { self.key ≤ 9 }
        ensures { result ≡ 5 + self.key }
    {
        KEY_PLACE + self.key
    }

    // Where the page size begins.
    pub fn size_place(self) -> usize
        requires { (self.key ≤ 9) × (self.length ≤ 8) }
        ensures { result ≡ 5 + self.key + self.length }
    {
        self.length_place() + self.length
    }

    // Where the fingerprints begin.
    pub fn pages_place(self) -> usize
        requires { (self.key ≤ 9) × (self.length ≤ 8) × (self.size ≤ 2) }
        ensures { result ≡ 5 + self.key + self.length + self.size }
    {
        self.size_place() + self.size
    }
}

// The fields of each version: what it changes of the one before.
const VERSION_1: Fields = Fields {
    key: 8,
    paired: false,
    length: 4,
    size: 2,
    unit: 8,
    filled: true,
};

const VERSION_2: Fields = Fields {
    filled: false,
    ..VERSION_1
};

const VERSION_3: Fields = Fields {
    length: 8,
    unit: 1,
    ..VERSION_2
};

const VERSION_4: Fields = Fields {
    key: 9,
    paired: true,
    ..VERSION_3
};

// The fields of the version that is written.
pub fn newest() -> Fields
    ensures { LaidOut (layout_of newest.version) result }
{
    VERSION_4
}

// The fields of a version; those of the newest where there is no such version.
pub fn fields_of(version: u64) -> Fields
    ensures { LaidOut (layout_of version) result }
{
    match version {
        1 => VERSION_1,
        2 => VERSION_2,
        3 => VERSION_3,
        _ => newest(),
    }
}

// The fields of a version, if there is such a version.
pub fn known_fields(version: u64) -> Option<Fields>
    ensures { FieldsOf version result }
{
    match version {
        1..=NEWEST => Some(fields_of(version)),
        _ => None,
    }
}

// Where the fingerprints begin in the newest version.
pub fn pages_place() -> usize
    ensures { (result ≡ page_place (layout_of newest.version) 0) × (result < 32) }
{
    newest().pages_place()
}

// The part of a sheet that begins with the fingerprints, from their place on.
pub fn page_fields(sheet: &[u8], place: usize) -> &[u8]
    requires { place ≤ length sheet.now }
    ensures { result.now ≡ drop place sheet.now }
{
    &sheet[place..]
}

// The bytes of a sheet with so many pages, by the place where its fingerprints begin.
pub fn sheet_length(place: usize, pages: u64) -> u64
    requires { (place < 32) × (pages < 2 ^ 32) }
    ensures { result ≡ place + 8 * pages + 8 }
{
    place as u64 + 8 * pages + 8
}

// How many pages of s bytes a file of n bytes has.
pub fn page_count(s: u64, n: u64) -> u64
    requires { (0 < s) × (s ≤ 4096) × (n < 2 ^ 32) }
    ensures { result ≡ page_count s n }
{
    n.div_ceil(s)
}

// How many pages of s bytes a file of n bits has: an unfinished byte counts as one.
pub fn pages_for(s: u64, n: u64) -> u64
    requires { (0 < s) × (s ≤ 4096) × (n ≤ longest) }
    ensures { result ≡ pages_for s n }
{
    page_count(s, n.div_ceil(8))
}

// Is the page size within 16 to 4,096?
pub fn size_right(s: u64) -> bool
    ensures { result ≡ not (ltb s 16 || ltb 4096 s) }
{
    (16..=4096).contains(&s)
}
