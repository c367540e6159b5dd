// The whole part for C and Rust, for the test beside the machine's own conversion.
#![tactic(auto)]

ghost use Rattle.std.specs.Prelude.{◌≡◌};
ghost use Rattle.std.specs.Float.{binary64};
ghost use Rattle.std.specs.Float.Ieee.{to_bits};
ghost use Rattle.fraction.specs.Whole.{whole_part, whole_of_word};

#[unsafe(no_mangle)]
pub extern "C" fn whole_part_of(x: f64) -> u64
    ensures value { result ≡ whole_of_word (to_bits binary64 x) }
    ensures whole { result ≡ whole_part x }
{
    fraction::whole_part(x)
}
