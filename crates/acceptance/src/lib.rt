// Which polynomials are keys: document 01's definition in specs/, and in proofs/ the criterion by which the code decides it.
#![tactic(auto)]

ghost use Rattle.std.specs.Prelude.{◌≡◌};
ghost use Rattle.acceptance.specs.Keys.{key_of};

// A key as it is handed in: its degree, and the word of its coefficients below t^degree, so that degree 64 fits. Nothing is known of it yet.
#[derive(Clone, Copy)]
pub struct Key {
    pub degree: u32,
    pub word: u64,
}

// The key that a number of 64 bits is handed in as. The degree of 0 is 0.
pub fn key_of(p: u64) -> Key
    ensures { result ≡ key_of p }
{
    if p == 0 {
        return Key { degree: 0, word: 0 };
    }
    let degree = gf2::degree(p);
    Key {
        degree,
        word: gf2::low_bits(p, degree),
    }
}
