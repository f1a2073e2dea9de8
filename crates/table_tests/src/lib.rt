// The tests of a lent table under an opened key. This function is for the project's own crates: what it requires, every caller proves.
#![tactic(auto)]

ghost use Rattle.std.specs.Prelude.{◌≡◌};
ghost use Rattle.gf2.specs.Moduli.{polynomial, Proper};
ghost use Rattle.refusals.specs.Refusals.{judged};
ghost use Rattle.refusals.specs.Answers.{told};
ghost use Rattle.table_tests.specs.TableTests.{table_tests};

use gf2::Modulus;
use refusals::Refusal;

// Are the lent words the table of a modulus? Numbers 5, 6.
pub fn judge(p: Modulus, words: &[u64]) -> Result<(), Refusal>
    requires { Proper p }
    ensures { told result ≡ judged (table_tests (polynomial p) words.now) }
{
    if words.len() != 1024 {
        return Err(Refusal::TableSize);
    }
    if !lookups::table_holds(words, p) {
        return Err(Refusal::TableWord);
    }
    Ok(())
}
