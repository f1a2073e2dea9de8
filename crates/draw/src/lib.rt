// Drawing a key by Rabin's method: the caller brings a random element of a field, and gets its minimal polynomial.
#![tactic(auto)]

ghost use Rattle.std.specs.Prelude.{◌≡◌, ◌||◌, ◌^◌, ◌<◌, leb, ltb};
ghost use Rattle.lists.specs.Members.{among};
ghost use Rattle.gf2.specs.Polynomials.{◌⊗◌, rem};
ghost use Rattle.gf2.specs.Moduli.{polynomial, Proper};
ghost use Rattle.refusals.specs.Answers.{told};
ghost use Rattle.basis.specs.Rows.{Matrix};
ghost use Rattle.fields.specs.Fields.{at};
ghost use Rattle.fields.specs.Primes.{Field};
ghost use Rattle.draw.specs.Drawing.{degrees, drawn, draw};

use acceptance::Key;
use gf2::Modulus;
use refusals::Refusal;

// Number 3 does not apply to the degree.
fn listed(degree: u32) -> bool
    ensures { result ≡ among degree degrees }
{
    matches!(
        degree,
        11 | 13 | 17 | 19 | 23 | 29 | 31 | 37 | 41 | 43 | 47 | 53 | 59 | 61
    )
}

// Number 4 applies to the element.
fn out_of_range(k: u32, element: u64) -> bool
    requires { k < 64 }
    ensures { result ≡ (ltb element 2 || leb (2 ^ k) element) }
{
    let power: u64 = 1 << k;
    element < 2 || power <= element
}

// Multiplication by a, as a matrix: its rows are the residues of a, a·t, a·t^2, ..
fn multiples(p: Modulus, a: u64) -> [u64; 64]
    requires { Proper p × (a < 2 ^ p.degree) }
    ensures { Matrix (λ x. rem (polynomial p) (x ⊗ a)) result }
{
    let mut rows: [u64; 64] = [0; 64];
    let mut x = a;
    for j in 0..64 {
        rows[j] = x;
        x = gf2::step(p, x, 0);
    }
    rows
}

// The powers 1, e, e^2, .. as the rows of a matrix: that of the map which takes a polynomial to its value at e. Multiplication by e goes to the
// lent array. What that holds then is left open.
fn powers(p: Modulus, e: u64, times_e: &mut [u64; 64]) -> [u64; 64]
    requires { Proper p × (e < 2 ^ p.degree) }
    ensures { Matrix (λ q. at (polynomial p) q e) result }
{
    *times_e = multiples(p, e);
    let mut rows: [u64; 64] = [0; 64];
    let mut power: u64 = 1;
    for i in 0..64 {
        rows[i] = power;
        power = relations::sum_of(power, times_e);
    }
    rows
}

// The minimal polynomial of e modulo a polynomial that makes a field: the relation among the powers of e. Both steps take the same room beside the
// powers, so that the stack holds two arrays and not three.
fn minimal_polynomial(p: Modulus, e: u64) -> u64
    requires { Proper p × (p.degree < 64) × Field (polynomial p) p.degree × (1 < e) × (e < 2 ^ p.degree) }
    ensures { result ≡ drawn (polynomial p) p.degree e }
{
    let mut room: [u64; 64] = [0; 64];
    let rows = powers(p, e, &mut room);
    relations::relation_by(rows, p.degree, &mut room)
}

// The key of a degree that an element draws. Numbers 3, 4.
pub fn draw(degree: u32, element: u64) -> Result<Key, Refusal>
    ensures { told result ≡ draw degree element }
{
    if !listed(degree) {
        return Err(Refusal::DegreeNotListed);
    }
    if out_of_range(degree, element) {
        return Err(Refusal::ElementOutOfRange);
    }
    let low = stock::stock_word(degree);
    let p = Modulus { degree, low };
    let polynomial = minimal_polynomial(p, element);
    let word = gf2::low_bits(polynomial, degree);
    Ok(Key { degree, word })
}
