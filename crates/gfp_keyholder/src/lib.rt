// The Keyholder level: drawing, for C. The guarantee of the drawn keys stands in the crate owner_risk.
#![tactic(auto)]

ghost use Rattle.std.specs.Prelude.{◌≡◌};
ghost use Rattle.refusals.specs.Refusals.{number_of, value_or};
ghost use Rattle.draw.specs.Drawing.{draw};
ghost use Rattle.c_interface.specs.Interface.{key_at};

// The key that an element draws is of the degree asked for, and its word goes to the place: 0 or the refusal's number, and on refusal the place
// keeps what it held. Numbers 3, 4.
#[unsafe(no_mangle)]
pub extern "C" fn gfp_draw(degree: u32, element: u64, word: &mut u64) -> u32
    ensures { (result ≡ number_of (draw degree element))
        × (key_at degree word.new ≡ value_or (key_at degree word.old) (draw degree element)) }
{
    match draw::draw(degree, element) {
        Ok(key) => {
            *word = key.word;
            0
        }
        Err(r) => refusals::number(r),
    }
}
