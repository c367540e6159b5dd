// The bound that decides a changed maximum.
ghost use Rattle.std.specs.Prelude.{◌≡◌};
ghost use Rattle.reason_rules.specs.Bounds.{rise_bound, fall_bound, settings_bound};
ghost use Rattle.reason_rules.specs.Reasons.{increase_raw};
ghost use Rattle.reasons.specs.Changes.{flash_value};

use new_maximum::flash_rise;
use reason_rules::Bound;
use settings::{Flash, Increase, Settings};

// A rise to raw, which maximum size and maximum plus cap may cut.
fn rise_bound(cap: Option<u64>, raw: u64, maximum: u64, largest: u64) -> Option<Bound>
    ensures { result ≡ rise_bound cap raw maximum largest }
{
    match cap {
        None if largest < raw => Some(Bound::Largest),
        None => None,
        Some(bytes) => {
            let most = maximum.saturating_add(bytes);
            if (largest < raw) & (largest <= most) {
                Some(Bound::Largest)
            } else if most < raw {
                Some(Bound::Increment)
            } else {
                None
            }
        }
    }
}

// A fall to raw, which minimum size and maximum less cap may cut: the rise turned round. One function for both would take each
// comparison, the cap's limit and both bounds as parameters.
pub fn fall_bound(cap: Option<u64>, raw: u64, maximum: u64, smallest: u64) -> Option<Bound>
    ensures { result ≡ fall_bound cap raw maximum smallest }
{
    match cap {
        None if raw < smallest => Some(Bound::Smallest),
        None => None,
        Some(bytes) => {
            let least = maximum.saturating_sub(bytes);
            if (raw < smallest) & (least <= smallest) {
                Some(Bound::Smallest)
            } else if raw < least {
                Some(Bound::Decrement)
            } else {
                None
            }
        }
    }
}

// The bound of an increase.
pub fn increase_bound(rule: Increase, cap: Option<u64>, maximum: u64, largest: u64) -> Option<Bound>
    ensures { result ≡ rise_bound cap (increase_raw rule maximum) maximum largest }
{
    let raw = match rule {
        Increase::Off => maximum,
        Increase::Threshold { multiplier, .. } => fraction::size_product(maximum, multiplier),
    };
    rise_bound(cap, raw, maximum, largest)
}

// The bound of a flash of x bytes: maximum size is all that may cut it.
pub fn flash_bound(rule: Flash, x: u64, maximum: u64, held: u64, largest: u64) -> Option<Bound>
    ensures { result ≡ rise_bound None (flash_value rule x maximum held) maximum largest }
{
    let rise = match rule {
        Flash::Off => 0,
        Flash::On { multiple, .. } => flash_rise(multiple, x, maximum, held),
    };
    if (largest < maximum) | (largest.saturating_sub(maximum) < rise) {
        Some(Bound::Largest)
    } else {
        None
    }
}

// The bound of a maximum that settings give: an initial size is not cut.
pub fn settings_bound(s: Settings, maximum: u64) -> Option<Bound>
    ensures { result ≡ settings_bound s maximum }
{
    if s.preset {
        None
    } else if s.largest < maximum {
        Some(Bound::Largest)
    } else if maximum < s.smallest {
        Some(Bound::Smallest)
    } else {
        None
    }
}
