// The readings of document 01 about keys: the number that each key is refused with, 0 where it is accepted, and how many keys of the
// degrees 8 to 14 are accepted. A key is handed in as its degree and its word: 0x11B is degree 8, word 1B. Then those of wish 8: degree 64,
// degrees outside 8 to 64, and words with a bit at or above t^k.
#![tactic(auto)]

ghost use Rattle.std.specs.Prelude.{◌≡◌};
ghost use Rattle.refusals.specs.Refusals.{number_of};
ghost use Rattle.keys.specs.Testing.{test_key};

use acceptance::Key;
use std::io;
use std::io::Print;

// The number of the refusal, 0 where the key is accepted.
fn number_of(key: Key) -> u32
    ensures { result ≡ number_of (test_key key) }
{
    match keys::test(key) {
        Ok(_) => 0,
        Err(r) => refusals::number(r),
    }
}

fn print(rt: &impl Print, n: u64) -> io::Result<()> {
    vectors::decimal(rt, b"", n)?;
    vectors::text(rt, b"\n")
}

// The accepted keys of a degree with words below `end`.
fn accepted_below(degree: u32, end: u64) -> u64 {
    let mut count: u64 = 0;
    for word in 0..end {
        count = vectors::counted(count, number_of(Key { degree, word }) == 0);
    }
    count
}

fn print_number(rt: &impl Print, degree: u32, word: u64) -> io::Result<()> {
    print(rt, number_of(Key { degree, word }) as u64)
}

fn print_count(rt: &impl Print, degree: u32, end: u64) -> io::Result<()> {
    print(rt, accepted_below(degree, end))
}

fn print_at_64(rt: &impl Print) -> io::Result<()> {
    print_number(rt, 64, 0x1B)?;
    print_number(rt, 64, 0x1D)?;
    print_number(rt, 64, 0xB000000000000001)?;
    print_number(rt, 64, 0xAD93D23594C935A9)?;
    print_number(rt, 64, 0x00)?;
    print_number(rt, 64, 0x01)?;
    print_number(rt, 64, 0x19)?;
    print_number(rt, 64, 0xFFFFFFFFFFFFFFFF)
}

fn print_outside(rt: &impl Print) -> io::Result<()> {
    print_number(rt, 7, 0x03)?;
    print_number(rt, 65, 0x1B)?;
    print_number(rt, 255, 0x1B)?;
    print_number(rt, 0xFFFFFFFF, 0x1B)?;
    print_number(rt, 8, 0x11B)?;
    print_number(rt, 8, 0x21B)?;
    print_number(rt, 63, 0x8000000000000003)
}

fn main(rt: HostRuntime) -> io::Result<()> {
    print_number(&rt, 0, 0x00)?;
    print_number(&rt, 7, 0x7F)?;
    print_number(&rt, 8, 0x00)?;
    print_number(&rt, 8, 0x01)?;
    print_number(&rt, 10, 0x05)?;
    print_number(&rt, 16, 0x071F)?;
    print_number(&rt, 8, 0x1B)?;
    print_number(&rt, 8, 0x1D)?;
    print_number(&rt, 9, 0x03)?;
    print_number(&rt, 10, 0x09)?;
    print_count(&rt, 8, 0x100)?;
    print_count(&rt, 9, 0x200)?;
    print_count(&rt, 10, 0x400)?;
    print_count(&rt, 11, 0x800)?;
    print_count(&rt, 12, 0x1000)?;
    print_count(&rt, 13, 0x2000)?;
    print_count(&rt, 14, 0x4000)?;
    print_at_64(&rt)?;
    print_outside(&rt)
}
