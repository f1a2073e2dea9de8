// The test of a key.
#![tactic(auto)]

ghost use Rattle.std.specs.Prelude.{◌≡◌, true};
ghost use Rattle.refusals.specs.Answers.{told};
ghost use Rattle.acceptance.specs.Keys.{outside};
ghost use Rattle.stock.specs.Stock.{stock_word};
ghost use Rattle.keys.specs.Testing.{test_key};

use acceptance::Key;
use gf2::Modulus;
use refusals::Refusal;

// Number 1 applies to the key: its degree is outside 8 to 64, or its word has a bit at or above t^k. Modulo t^k a word without one is a residue.
fn out_of_range(key: Key) -> bool
    ensures { result ≡ outside key }
{
    let k = key.degree;
    let word = key.word;
    if k < 8 {
        return true;
    }
    if 64 < k {
        return true;
    }
    let power = Modulus { degree: k, low: 0 };
    !gf2::is_residue(power, word)
}

// Is the key the stock key of its degree? The coefficients of a stock key below the leading one are below 256: no other key is looked up.
fn is_stock(p: Modulus) -> bool
    ensures { result ≡ true → p.low ≡ stock_word p.degree }
{
    if 256 <= p.low {
        return false;
    }
    p.low == stock::stock_word(p.degree)
}

// The opened key, or the refusal of a key that is not accepted. The stock key of its degree is known to be accepted. Numbers 1, 2.
pub fn test(key: Key) -> Result<Modulus, Refusal>
    ensures { told result ≡ test_key key }
{
    if out_of_range(key) {
        return Err(Refusal::KeyRange);
    }
    let p = Modulus {
        degree: key.degree,
        low: key.word,
    };
    if is_stock(p) {
        return Ok(p);
    }
    if !irreducibility::irreducible(p) {
        return Err(Refusal::KeyReducible);
    }
    Ok(p)
}
