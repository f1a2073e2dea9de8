// The key's line that the printing program reads. These functions are for the project's own crates: what they require, every caller proves.
#![tactic(auto)]

ghost use Rattle.std.specs.Prelude.{◌≡◌, true, false, ◌+◌, ◌*◌, ◌^◌, ◌<◌, ◌≤◌, length, SomeIff, MatchOption};
ghost use Rattle.key_lines.specs.KeyLines.{digit, all_digits, hex_from, key_line};
ghost use Rattle.key_lines.specs.Deciding.{undecided};

use acceptance::Key;

// Why the first line of an input gives no key: it is no line of 1 to 17 digits, or they write a number of 2^65 or more.
#[derive(Clone, Copy)]
pub enum LineError {
    NoKey,
    TooLarge,
}

// The value of a lowercase hexadecimal digit. std's `to_digit` takes capital letters too.
fn digit(b: u8) -> Option<u64>
    ensures { SomeIff result (digit b < 16) (digit b) }
{
    match b {
        b'0'..=b'9' => Some(u64::from(b - b'0')),
        b'a'..=b'f' => Some(u64::from(b - b'a') + 10),
        _ => None,
    }
}

// The number that at most 16 digits write; none where a byte is no digit.
fn hex_value(line: &[u8]) -> Option<u64>
    requires { length line.now ≤ 16 }
    ensures { SomeIff result (all_digits line.now ≡ true) (hex_from 0 line.now) }
{
    let mut value = 0;
    for b in line {
        value = value * 16 + digit(*b)?;
    }
    Some(value)
}

// The same of at most 17 digits: how often 2^64 is in the number, and the word below.
fn top_and_word(line: &[u8]) -> Option<(u64, u64)>
    requires { length line.now ≤ 17 }
    ensures { MatchOption result (all_digits line.now ≡ false) (λ v. (all_digits line.now ≡ true) × (hex_from 0 line.now ≡ v.0 * 2 ^ 64 + v.1)) }
{
    if line.len() < 17 {
        return Some((0, hex_value(line)?));
    }
    Some((digit(line[0])?, hex_value(&line[1..])?))
}

// The key that the first line of an input gives, and the place where the file begins.
pub fn key_line(input: &[u8]) -> Result<(Key, usize), LineError>
    ensures { result ≡ key_line input.now }
{
    let n = input
        .iter()
        .position(|b| *b == b'\n')
        .ok_or(LineError::NoKey)?;
    if !(1..=17).contains(&n) {
        return Err(LineError::NoKey);
    }
    let (top, word) = top_and_word(&input[..n]).ok_or(LineError::NoKey)?;
    match top {
        0 => Ok((acceptance::key_of(word), n + 1)),
        1 => Ok((Key { degree: 64, word }, n + 1)),
        _ => Err(LineError::TooLarge),
    }
}

// Whether what comes behind these bytes can still change what the first line says.
pub fn undecided(input: &[u8]) -> bool
    ensures { result ≡ undecided input.now }
{
    input.len() < 18 && input.iter().all(|b| digit(*b).is_some())
}
