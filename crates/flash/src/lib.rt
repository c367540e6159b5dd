// The flash: a large incoming size raises the maximum before any room is made.
#![tactic(auto)]

ghost use Rattle.std.specs.Prelude.{◌≡◌, Bool, ◌≤◌, ltb, if◌then◌else◌};
ghost use Rattle.rules.specs.Resizing.{flashed};
ghost use Rattle.reason_rules.specs.declared.Cause.TheVariants as cause;
ghost use Rattle.reason_rules.specs.Reasons.{flash_change};
ghost use Rattle.reasons.specs.Changes.{change_of};
ghost use Rattle.layout.specs.Picture.{cache_in, rest_in};
ghost use Rattle.layout.specs.Holds.{Holds, Good};
ghost use Rattle.table.specs.Asked.{GoodRows};
ghost use Rattle.flash.specs.Raised.{is_flash, raised};

use reason_rules::{Bound, Cause, Change};
use reasons::bound::flash_bound;
use settings::Flash;
use table::header::{maximum, restart, set_maximum, settings};
use table::sums::held_bytes;

// Whether x bytes exceed the threshold's share of the maximum.
fn is_flash(rule: Flash, x: u64, maximum: u64) -> bool
    ensures { result ≡ is_flash rule x maximum }
{
    match rule {
        Flash::Off => false,
        Flash::On { threshold, .. } => fraction::exceeds_share(x, threshold, maximum),
    }
}

// The maximum raised to n, and the counters restarted, if n is above it.
fn raise(table: &mut [u64], before: u64, n: u64, bound: Option<Bound>) -> Option<Change>
    requires { Good table.old × (before ≡ (cache_in table.old).maximum) × (n ≤ (cache_in table.old).settings.largest) }
    ensures holds { Holds table.new (raised n (cache_in table.old)) (rest_in table.old) }
    ensures change { result ≡ (if ltb before n then Some (record { cause = cause.Flash; bound = bound }) else None) }
{
    if before < n {
        set_maximum(table, n);
        restart(table);
        Some(Change {
            cause: Cause::Flash,
            bound,
        })
    } else {
        None
    }
}

// The flash of x bytes; the answer is the change of the maximum.
pub fn flash(table: &mut [u64], rows: usize, x: u64) -> Option<Change>
    requires { GoodRows table.old rows }
    ensures holds { Holds table.new (flashed x (cache_in table.old)) (rest_in table.old) }
    ensures change { result ≡ change_of (flash_change x (cache_in table.old)) }
{
    let s = settings(table);
    let before = maximum(table);
    if !is_flash(s.flash, x, before) {
        return None;
    }
    let held = held_bytes(table, rows);
    let n = new_maximum::flash_maximum(s.flash, x, before, held, s.largest);
    let bound = flash_bound(s.flash, x, before, held, s.largest);
    raise(table, before, n, bound)
}
