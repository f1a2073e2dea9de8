// The stock list: a fixed table, one key a degree, by the coefficients below the leading one. The checker finds the same list by the divisors in
// proofs/Table.antt, and computes that each key is irreducible. That is done in a second arithmetic, on coefficients (proofs/Coefficients.antt):
// on numbers it would take the checker several times as long.
#![tactic(auto)]

ghost use Rattle.std.specs.Prelude.{◌≡◌, ◌≤◌, ◌<◌};
ghost use Rattle.stock.specs.Stock.{stock_word};

// The word of the smallest accepted key of each degree, 8 to 64 in rising order.
const STOCK: [u64; 57] = [
    0x1b, // degree 8
    0x3, 0x9, 0x5, 0x9, 0x1b, 0x21, 0x3, 0x2b, // degree 16
    0x9, 0x9, 0x27, 0x9, 0x5, 0x3, 0x21, 0x1b, // degree 24
    0x9, 0x1b, 0x27, 0x3, 0x5, 0x3, 0x9, 0x8d, // degree 32
    0x4b, 0x1b, 0x5, 0x35, 0x3f, 0x63, 0x11, 0x39, // degree 40
    0x9, 0x27, 0x59, 0x21, 0x1b, 0x3, 0x21, 0x2d, // degree 48
    0x71, 0x1d, 0x4b, 0x9, 0x47, 0x7d, 0x47, 0x95, // degree 56
    0x11, 0x63, 0x7b, 0x3, 0x27, 0x69, 0x3, 0x1b, // degree 64
];

// The word of the stock key of a degree 8 to 64; 0, and not a None, for every other number: that is what C gets from gfp_stock_key.
pub fn stock_word(degree: u32) -> u64
    ensures { result ≡ stock_word degree }
{
    match degree {
        8..=64 => STOCK[(degree - 8) as usize],
        _ => 0,
    }
}
