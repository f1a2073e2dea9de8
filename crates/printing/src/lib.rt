// The lines that the printing program prints. These functions are for the project's own crates: what they require, every caller proves.
#![tactic(auto)]

ghost use Rattle.std.specs.Prelude.{◌≡◌, false};
ghost use Rattle.acceptance.specs.Keys.{outside};
ghost use Rattle.numerals.specs.Buffers.{PutInFront};
ghost use Rattle.printing.specs.Printing.{report, refused, no_key};

use marks::Running;
use refusals::Refusal;

// The three lines of a mark, whose length they give in bytes, at the front of a buffer, and their own length.
pub fn report(m: Running, out: &mut [u8; 96]) -> usize
    requires { outside m.key ≡ false }
    ensures { PutInFront out.old out.new result (report m) }
{
    let degree = numerals::decimal(u64::from(m.key.degree));
    let key = numerals::polynomial(m.key);
    let bytes = numerals::decimal(m.length / 8);
    let mark = numerals::hexadecimal(m.fingerprint);
    numerals::put(
        out,
        &[
            b"key ",
            degree.text(),
            b" ",
            key.text(),
            b"\nbytes ",
            bytes.text(),
            b"\nmark ",
            mark.text(),
            b"\n",
        ],
    )
}

// The line of a refusal.
pub fn refusal(r: Refusal, out: &mut [u8; 96]) -> usize
    ensures { PutInFront out.old out.new result (refused r) }
{
    let number = numerals::decimal(u64::from(refusals::number(r)));
    numerals::put(out, &[b"refused ", number.text(), b"\n"])
}

// The line where the input gives no key.
pub fn no_key(out: &mut [u8; 96]) -> usize
    ensures { PutInFront out.old out.new result no_key }
{
    numerals::put(out, &[b"no key\n"])
}
