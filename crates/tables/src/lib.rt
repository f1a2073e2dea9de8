// Tables of residues: making one, and testing one against its key.
#![tactic(auto)]

ghost use Rattle.std.specs.Prelude.{◌≡◌, [], ◌∷◌};
ghost use Rattle.gf2.specs.Moduli.{polynomial, Proper};
ghost use Rattle.refusals.specs.Refusals.{first_of};
ghost use Rattle.refusals.specs.Answers.{reply, told};
ghost use Rattle.lookups.specs.Rule.{table};
ghost use Rattle.tables.specs.Tables.{make_table, test_table};
ghost use Rattle.table_tests.specs.TableTests.{table_size_test};

use acceptance::Key;
use gf2::Modulus;
use refusals::Refusal;

// The table of a modulus into the lent words. Number 5.
fn make_under(p: Modulus, words: &mut [u64]) -> Result<(), Refusal>
    requires { Proper p }
    ensures { reply words.new result ≡ first_of (table_size_test words.old ∷ []) words.old (table (polynomial p)) }
{
    if words.len() == 1024 {
        lookups::fill_table(words, p);
        return Ok(());
    }
    Err(Refusal::TableSize)
}

// The key's table into the lent words. Numbers 1, 2, 5.
pub fn make(key: Key, words: &mut [u64]) -> Result<(), Refusal>
    ensures { reply words.new result ≡ make_table key words.old }
{
    let p = keys::test(key)?;
    make_under(p, words)
}

// Are the lent words the key's table? Numbers 1, 2, 5, 6.
pub fn test(key: Key, words: &[u64]) -> Result<(), Refusal>
    ensures { told result ≡ test_table key words.now }
{
    let p = keys::test(key)?;
    table_tests::judge(p, words)
}
