// The refusals of document 01, each by name, and the number of each; the limit of lengths.
#![tactic(auto)]

ghost use Rattle.std.specs.Prelude.{◌≡◌, not, [], ◌∷◌, ◌+◌, ◌*◌};
ghost use Rattle.refusals.specs.Refusals.{number, number_of, passes};
ghost use Rattle.refusals.specs.Answers.{told};

// The limit of lengths (number 7), in bits, and the same in whole bytes.
pub const LONGEST: u64 = 34359738360;

pub const LONGEST_BYTES: u64 = 4294967295;

// Each refusal, with its number: 1 to 14, or 19.
#[derive(Clone, Copy, PartialEq, Eq)]
pub enum Refusal {
    KeyRange = 1,
    KeyReducible = 2,
    DegreeNotListed = 3,
    ElementOutOfRange = 4,
    TableSize = 5,
    TableWord = 6,
    TooLong = 7,
    MarkNotReduced = 8,
    PageLengthsDiffer = 9,
    PagePastEnd = 10,
    EmptyPattern = 11,
    PageSize = 12,
    BufferShort = 13,
    SheetMalformed = 14,
    FinalByte = 19,
}

// The number of a refusal.
pub fn number(r: Refusal) -> u32
    ensures { result ≡ number r }
{
    r as u32
}

// The number of an answer that holds no value: 0, or the refusal's.
pub fn number_of(answer: Result<(), Refusal>) -> u32
    ensures { result ≡ number_of (told answer) }
{
    match answer {
        Ok(()) => 0,
        Err(r) => number(r),
    }
}

// Number 7 applies neither to two lengths nor to their sum, which is not made: it might not fit 64 bits.
pub fn fits(a: u64, b: u64) -> bool
    ensures { result ≡ not (passes (a ∷ b ∷ (a + b) ∷ [])) }
{
    if LONGEST < a {
        return false;
    }
    b <= LONGEST - a
}

// Number 7 applies to none of three lengths.
pub fn within(x: u64, y: u64, z: u64) -> bool
    ensures { result ≡ not (passes (x ∷ y ∷ z ∷ [])) }
{
    if LONGEST < x {
        return false;
    }
    if LONGEST < y {
        return false;
    }
    z <= LONGEST
}

// Number 7 does not apply to a length of n bits.
pub fn bits_fit(n: u64) -> bool
    ensures { result ≡ not (passes (n ∷ [])) }
{
    n <= LONGEST
}

// Number 7 does not apply to n bytes, whose bits are not counted: 8n might not fit 64 bits.
pub fn bytes_fit(n: u64) -> bool
    ensures { result ≡ not (passes (8 * n ∷ [])) }
{
    n <= LONGEST_BYTES
}
