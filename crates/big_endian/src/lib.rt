// Bytes of a slice as a number, the first byte highest: one, four or eight of them, or any number up to eight; and a number as bytes. These functions
// are for the project's own crates: what they require, every caller proves.
#![tactic(auto)]

ghost use Rattle.std.specs.Prelude.{◌≡◌, ◌+◌, ◌*◌, ◌≤◌, ◌<◌, ◌^◌, length, take, drop};
ghost use Rattle.std.proofs.lemmas.List.Edits.{sets};
ghost use Rattle.files.specs.Files.{bits, value_from};
ghost use Rattle.big_endian.specs.Numbers.{bytes_of, number_at};

// One byte as a number.
pub fn byte_at(part: &[u8], i: usize) -> u32
    requires { i < length part.now }
    ensures { result ≡ value_from 0 (bits (take 1 (drop i part.now))) }
{
    u32::from(part[i])
}

// Four bytes as one number, the first highest. In one expression, which the compiler knows as one load.
pub fn four_at(part: &[u8], i: usize) -> u32
    requires { i + 4 ≤ length part.now }
    ensures { result ≡ value_from 0 (bits (take 4 (drop i part.now))) }
{
    u32::from_be_bytes([part[i], part[i + 1], part[i + 2], part[i + 3]])
}

// Eight bytes, likewise.
pub fn eight_at(part: &[u8], i: usize) -> u64
    requires { i + 8 ≤ length part.now }
    ensures { result ≡ value_from 0 (bits (take 8 (drop i part.now))) }
{
    (u64::from(four_at(part, i)) << 32) | u64::from(four_at(part, i + 4))
}

// Writes the w low bytes of x at a place; every other byte keeps its value.
pub fn put(bytes: &mut [u8], at: usize, w: usize, x: u64)
    requires { (w ≤ 8) × (at + w ≤ length bytes.old) }
    ensures { bytes.new ≡ sets bytes.old at (bytes_of w x) }
{
    bytes[at..at + w].copy_from_slice(&x.to_be_bytes()[8 - w..]);
}

// The number in w bytes at a place.
pub fn number_at(bytes: &[u8], at: usize, w: usize) -> u64
    requires { (w ≤ 8) × (at + w ≤ length bytes.now) }
    ensures { (result ≡ number_at at w bytes.now) × (result < 2 ^ (8 * w)) }
{
    let mut x: u64 = 0;
    for b in &bytes[at..at + w] {
        x = x * 256 + u64::from(*b);
    }
    x
}
