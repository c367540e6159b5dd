// A change of the maximum.
ghost use Rattle.std.specs.Prelude.{◌≡◌};
ghost use Rattle.reasons.specs.Changes.{fell_to, set_to, first_of};

use crate::bound::{fall_bound, settings_bound};
use reason_rules::{Bound, Cause, Change};
use settings::Settings;

// From the maximum down to n, which a target gave.
pub fn fell_to(
    n: u64,
    cause: Cause,
    target: u64,
    cap: Option<u64>,
    maximum: u64,
    smallest: u64,
) -> Option<Change>
    ensures { result ≡ fell_to n cause target cap maximum smallest }
{
    if n < maximum {
        Some(Change {
            cause,
            bound: fall_bound(cap, target, maximum, smallest),
        })
    } else {
        None
    }
}

// From the maximum to n, which settings gave.
pub fn set_to(n: u64, s: Settings, maximum: u64) -> Option<Change>
    ensures { result ≡ set_to n s maximum }
{
    if n == maximum {
        None
    } else {
        Some(Change {
            cause: Cause::Settings,
            bound: settings_bound(s, maximum),
        })
    }
}

// The first of two, if it is one, else the second.
pub fn first_of(first: Option<Change>, second: Option<Change>) -> Option<Change>
    ensures { result ≡ first_of first second }
{
    first.or(second)
}
