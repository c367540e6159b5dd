// Fractions are 64-bit floats, and each operation is rounded once. A size from a float is its whole
// part.
//
// Every function answers at every input: no number, infinities, negative numbers, -0.0, the
// smallest numbers and those from 2^64 on included.
#![tactic(auto)]

ghost use Rattle.std.specs.Prelude.{◌≡◌};
ghost use Rattle.fraction.specs.Fraction.{size_product, hit_rate, reserve_quotient, exceeds_share};

mod whole;
mod word;

use std::num::nearest_u64_to_f64;
pub use whole::whole_part;
pub use word::{float_of, word_of};

// The whole part of a size times a fraction.
#[tactic(auto, unfolding(crate::specs::Fraction::size_product))]
pub fn size_product(size: u64, fraction: f64) -> u64
    ensures { result ≡ size_product size fraction }
{
    whole_part(nearest_u64_to_f64(size) * fraction)
}

// Hits / accesses.
#[tactic(auto, unfolding(crate::specs::Fraction::hit_rate))]
pub fn hit_rate(hits: u64, accesses: u64) -> f64
    ensures { result ≡ hit_rate hits accesses }
{
    nearest_u64_to_f64(hits) / nearest_u64_to_f64(accesses)
}

// The whole part of held / (1 - reserve), in two operations.
pub fn reserve_quotient(held: u64, reserve: f64) -> u64
    ensures { result ≡ reserve_quotient held reserve }
{
    whole_part(nearest_u64_to_f64(held) / (1.0 - reserve))
}

// Whether x exceeds the threshold times the maximum.
#[tactic(auto, unfolding(crate::specs::Fraction::exceeds_share))]
pub fn exceeds_share(x: u64, threshold: f64, maximum: u64) -> bool
    ensures { result ≡ exceeds_share x threshold maximum }
{
    nearest_u64_to_f64(maximum) * threshold < nearest_u64_to_f64(x)
}
