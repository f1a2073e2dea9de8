// The house key, the stock key of degree 61, the test for it, and its table as a constant. They are for the project's own crates.
#![tactic(auto)]

mod constant;

ghost use Rattle.std.specs.Prelude.{◌≡◌, true};
ghost use Rattle.gf2.specs.Moduli.{polynomial};
ghost use Rattle.house.specs.House.{house_key, house_words};

use constant::HOUSE;
use gf2::Modulus;

// The house key t^61 + t^5 + t^2 + t + 1: its degree, and the word of its coefficients below t^61.
pub const DEGREE: u32 = 61;

pub const WORD: u64 = 0x27;

// Whether a modulus is the house key.
pub fn is_house(p: Modulus) -> bool
    ensures { result ≡ true → (p.degree ≡ 61) × (p.low ≡ 0x27) × (polynomial p ≡ house_key) }
{
    if p.degree != DEGREE {
        return false;
    }
    p.low == WORD
}

// The words of its table, which document 01 asks for. Their rule is computed here, once: every other function takes them from this one. Feeding under
// another key reads them, and tests them like a lent table (`marks::Running::feed_house`). Feeding under the house key does not: it folds (crate `feeding`).
pub fn words() -> [u64; 1024]
    ensures { result ≡ house_words }
{
    HOUSE
}
