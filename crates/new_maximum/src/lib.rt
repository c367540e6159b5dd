// How the maximum changes, by value: the flash, the increase and the decrease. Every function answers at every input.
#![tactic(auto)]

ghost use Rattle.std.specs.Prelude.{◌≡◌, ◌-◌};
ghost use Rattle.fraction.specs.Fraction.{size_product};
ghost use Rattle.rules.specs.Resizing.{free_space, flash_maximum, at_most, increased_by, at_least, lowered};

use settings::{Flash, Increase};

// What a flash of x bytes adds to the maximum: the multiple, less the free space.
pub fn flash_rise(multiple: f64, x: u64, maximum: u64, held: u64) -> u64
    ensures { result ≡ size_product x multiple - free_space maximum held }
{
    let free = maximum.saturating_sub(held);
    fraction::size_product(x, multiple).saturating_sub(free)
}

// The maximum after a flash of x bytes.
pub fn flash_maximum(rule: Flash, x: u64, maximum: u64, held: u64, largest: u64) -> u64
    ensures { result ≡ flash_maximum rule x maximum held largest }
{
    match rule {
        Flash::On {
            multiple,
            threshold,
        } if fraction::exceeds_share(x, threshold, maximum) => {
            let rise = flash_rise(multiple, x, maximum, held);
            maximum.saturating_add(rise).min(largest)
        }
        _ => maximum,
    }
}

// n, not above the maximum plus the cap.
fn at_most(cap: Option<u64>, maximum: u64, n: u64) -> u64
    ensures { result ≡ at_most cap maximum n }
{
    match cap {
        None => n,
        Some(bytes) => n.min(maximum.saturating_add(bytes)),
    }
}

// The maximum after the increase rule.
pub fn increased(
    rule: Increase,
    cap: Option<u64>,
    rate: f64,
    full: bool,
    maximum: u64,
    largest: u64,
) -> u64
    ensures { result ≡ increased_by rule cap rate full maximum largest }
{
    match rule {
        Increase::Threshold { lower, multiplier } if (rate < lower) & full => {
            let n = fraction::size_product(maximum, multiplier).min(largest);
            at_most(cap, maximum, n)
        }
        _ => maximum,
    }
}

// n, not below the maximum less the cap.
fn at_least(cap: Option<u64>, maximum: u64, n: u64) -> u64
    ensures { result ≡ at_least cap maximum n }
{
    match cap {
        None => n,
        Some(bytes) => n.max(maximum.saturating_sub(bytes)),
    }
}

// The maximum lowered to a target.
pub fn lowered(target: u64, cap: Option<u64>, maximum: u64, smallest: u64) -> u64
    ensures { result ≡ lowered target cap maximum smallest }
{
    maximum.min(at_least(cap, maximum, target.max(smallest)))
}
