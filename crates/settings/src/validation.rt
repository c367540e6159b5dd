// Which field of the settings is bad, if any.
ghost use Rattle.std.specs.Prelude.{◌≡◌, position};
ghost use Rattle.settings.specs.Validation.{increases, flashes, decreases, increase_allowed, below_upper, rates_in_order, flash_allowed, decrease_allowed, first_bad};

use crate::ranges::{cap_allowed, open_below, size_allowed, unit, within};
use crate::{Decrease, Flash, Increase, Settings};

// The epoch length's ends, in accesses.
const SHORTEST_EPOCH: u64 = 100;

const LONGEST_EPOCH: u64 = 1000000;

// The ends of an age-out's epochs.
const FEWEST_EPOCHS: u64 = 1;

const MOST_EPOCHS: u64 = 10;

// Whether the increase rule is on.
pub fn increases(i: Increase) -> bool
    ensures { result ≡ increases i }
{
    !matches!(i, Increase::Off)
}

// Whether the flash rule is on.
fn flashes(f: Flash) -> bool
    ensures { result ≡ flashes f }
{
    !matches!(f, Flash::Off)
}

// Whether the decrease rule is on.
pub fn decreases(d: Decrease) -> bool
    ensures { result ≡ decreases d }
{
    !matches!(d, Decrease::Off)
}

// Whether the lower rate and the multiplier are in their ranges.
fn increase_allowed(i: Increase) -> bool
    ensures { result ≡ increase_allowed i }
{
    match i {
        Increase::Off => true,
        Increase::Threshold { lower, multiplier } => {
            unit(lower) & open_below(multiplier, 1.0, 2.0)
        }
    }
}

// Whether lower is below the upper rate, if there is one.
fn below_upper(lower: f64, d: Decrease) -> bool
    ensures { result ≡ below_upper lower d }
{
    match d {
        Decrease::Off | Decrease::AgeOut { .. } => true,
        Decrease::Threshold { upper, .. } | Decrease::AgeOutWithThreshold { upper, .. } => {
            lower < upper
        }
    }
}

// Whether the lower rate is below the upper where both count.
fn rates_in_order(i: Increase, d: Decrease) -> bool
    ensures { result ≡ rates_in_order i d }
{
    match i {
        Increase::Off => true,
        Increase::Threshold { lower, .. } => below_upper(lower, d),
    }
}

// Whether the multiple and the threshold are in their ranges.
fn flash_allowed(f: Flash) -> bool
    ensures { result ≡ flash_allowed f }
{
    match f {
        Flash::Off => true,
        Flash::On {
            multiple,
            threshold,
        } => (0.1..=10.0).contains(&multiple) & (0.1..=1.0).contains(&threshold),
    }
}

// Whether upper rate, multiplier, epochs and reserve are in their ranges.
fn decrease_allowed(d: Decrease) -> bool
    ensures { result ≡ decrease_allowed d }
{
    match d {
        Decrease::Off => true,
        Decrease::Threshold { upper, multiplier } => unit(upper) & unit(multiplier),
        Decrease::AgeOut { epochs, reserve } => within(epochs, FEWEST_EPOCHS, MOST_EPOCHS)
            & unit(reserve),
        Decrease::AgeOutWithThreshold {
            upper,
            epochs,
            reserve,
        } => unit(upper) & within(epochs, FEWEST_EPOCHS, MOST_EPOCHS) & unit(reserve),
    }
}

// The index of the first that is true, if one is.
fn first_true(bad: &[bool]) -> Option<usize>
    ensures { result ≡ position (λ b. b) bad.now }
{
    bad.iter().position(|b| *b)
}

// The number of the lowest bad field, 0 if none is bad. Opening needs the initial size set.
// No Option: `first_bad` (specs/Validation.antt), and the theorems on it, count the fields from 1 and have 0 for none.
pub fn first_bad_field(s: Settings, opening: bool) -> u64
    ensures { result ≡ first_bad s opening }
{
    let evictions = !s.evictions
        & (increases(s.increase) | flashes(s.flash) | decreases(s.decrease));
    let preset = opening & !s.preset;
    let initial = s.preset & !within(s.initial, s.smallest, s.largest);
    let clean = !unit(s.clean);
    let largest = !size_allowed(s.largest);
    let smallest = !size_allowed(s.smallest) | (s.largest < s.smallest);
    let epoch = !within(s.epoch, SHORTEST_EPOCH, LONGEST_EPOCH);
    let increase = !increase_allowed(s.increase) | !rates_in_order(s.increase, s.decrease);
    let increment = !cap_allowed(s.increment);
    let flash = !flash_allowed(s.flash);
    let decrease = !decrease_allowed(s.decrease);
    let decrement = !cap_allowed(s.decrement);
    let bad = [
        evictions, preset, initial, clean, largest, smallest, epoch, increase, increment, flash,
        decrease, decrement,
    ];
    match first_true(&bad) {
        Some(index) => index as u64 + 1,
        None => 0,
    }
}
