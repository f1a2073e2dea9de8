// The arithmetic of crate gf2, exported for the project's own measurements: modulo the house key for the
// benchmark, and one step under any modulus for a look at its machine code.
#![tactic(auto)]

ghost use Rattle.std.specs.Prelude.{◌≡◌, ◌+◌, ◌-◌, ◌*◌, ◌/◌, ◌%◌, ◌^◌};
ghost use Rattle.gf2.specs.Polynomials.{monic, rem, ◌⊗◌};

use gf2::Modulus;

const HOUSE: Modulus = Modulus {
    degree: house::DEGREE,
    low: house::WORD,
};

#[unsafe(no_mangle)]
pub extern "C" fn measured_product(a: u64, b: u64) -> u64
    ensures { result ≡ rem (monic 61 39) (a % 2 ^ 61 ⊗ (b % 2 ^ 61)) }
{
    gf2::product(
        HOUSE,
        gf2::low_bits(a, house::DEGREE),
        gf2::low_bits(b, house::DEGREE),
    )
}

#[unsafe(no_mangle)]
pub extern "C" fn measured_power_of_t(n: u64) -> u64
    ensures { result ≡ rem (monic 61 39) (2 ^ n) }
{
    gf2::power_of_t(HOUSE, n)
}

// One step under any modulus: of `low` and `f` the highest 1 + d % 64 bits count. The degree is not known when this is compiled, so the
// machine code is that of the step for every degree (tools/test-step looks at it).
#[unsafe(no_mangle)]
pub extern "C" fn measured_step(d: u32, low: u64, f: u64, bit: u64) -> u64
    ensures { result ≡ rem (monic (1 + d % 64) (low / 2 ^ (63 - d % 64))) (f / 2 ^ (63 - d % 64) * 2 + bit % 2) }
{
    let spare = 63 - d % 64;
    let p = Modulus {
        degree: 1 + d % 64,
        low: low >> spare,
    };
    gf2::step(p, f >> spare, bit % 2)
}
