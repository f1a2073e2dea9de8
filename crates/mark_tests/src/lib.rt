// The tests of a mark and of a part that is to be fed to it, under an opened key. This function is for the project's own crates: what it requires, every
// caller proves.
#![tactic(auto)]

ghost use Rattle.std.specs.Prelude.{◌≡◌, ◌+◌};
ghost use Rattle.gf2.specs.Moduli.{polynomial, Proper};
ghost use Rattle.refusals.specs.Refusals.{first_of};
ghost use Rattle.refusals.specs.Answers.{told};
ghost use Rattle.files.specs.Files.{as_part, part_length};
ghost use Rattle.mark_tests.specs.MarkTests.{feed_tests};

use files::Mark;
use gf2::Modulus;
use refusals::Refusal;

// The length in bits that feeding a part to a mark gives, or a refusal. Numbers 7, 8, 19.
pub fn judge(p: Modulus, m: Mark, part: &[u8], used: u32) -> Result<u64, Refusal>
    requires { Proper p }
    ensures { told result ≡ first_of (feed_tests (polynomial p) m (as_part part.now used)) tt
        (m.length + part_length (as_part part.now used)) }
{
    let f = m.fingerprint;
    let n = files::part_length(part, used);
    if !refusals::fits(m.length, n) {
        return Err(Refusal::TooLong);
    }
    if !gf2::is_residue(p, f) {
        return Err(Refusal::MarkNotReduced);
    }
    if files::is_misused(part, used) {
        return Err(Refusal::FinalByte);
    }
    let total = m.length + n;
    Ok(total)
}
