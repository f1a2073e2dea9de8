// What the programs that print vectors share: keys, and labelled numbers, refusals and marks on standard output.
#![tactic(auto)]

ghost use Rattle.std.specs.Prelude.{◌≡◌, ◌+◌, ◌%◌, ◌^◌, if◌then◌else◌};

use acceptance::Key;
use marks::{RefusedMark, Running};
use std::io;
use std::io::Print;

// A key by its degree and its word.
pub fn key(degree: u32, word: u64) -> Key
    ensures { result ≡ record { degree = degree; word = word } }
{
    Key { degree, word }
}

pub fn text(rt: &impl Print, bytes: &[u8]) -> io::Result<()> {
    rt.write_all(bytes)
}

// A label, and behind it a number in decimal.
pub fn decimal(rt: &impl Print, label: &[u8], n: u64) -> io::Result<()> {
    text(rt, label)?;
    print!(rt; "{n}")
}

// The same in hexadecimal, in two digits at least.
pub fn hex(rt: &impl Print, label: &[u8], n: u64) -> io::Result<()> {
    text(rt, label)?;
    print!(rt; "{n:02x}")
}

// A refusal's number.
pub fn refused(rt: &impl Print, number: u32) -> io::Result<()> {
    decimal(rt, b"refused ", u64::from(number))
}

// A mark: its fingerprint, and its length in bits.
pub fn mark(rt: &impl Print, m: Running) -> io::Result<()> {
    hex(rt, b"", m.fingerprint)?;
    decimal(rt, b", ", m.length)?;
    text(rt, b" bits\n")
}

// A mark, or the refusal's number with the mark that went back.
pub fn fed_or_refused(rt: &impl Print, answer: Result<Running, RefusedMark>) -> io::Result<()> {
    match answer {
        Ok(m) => mark(rt, m),
        Err(refused_mark) => {
            refused(rt, refusals::number(refused_mark.refusal))?;
            text(rt, b", mark ")?;
            mark(rt, refused_mark.mark)
        }
    }
}

// A count, and one more where that is so.
pub fn counted(count: u64, so: bool) -> u64
    ensures { result ≡ (if so then (count + 1) % 2 ^ 64 else count) }
{
    count.wrapping_add(u64::from(so))
}
