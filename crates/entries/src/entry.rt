// Entries.
ghost use Rattle.std.specs.Prelude.{◌≡◌, ◌+◌, min};
ghost use Rattle.rules.specs.Allowed.{HoldAllowed};
ghost use Rattle.rules.specs.Entries.{is_held, is_listed, cleaned, changed_to, with_pin, protected_for, released, new_entry};
ghost use Rattle.rules.specs.Limits.{most_idle};

use crate::hold::{is_held, joined, less_one};
use rules::entry::{Entry, Hold};
use rules::request::Access;

const MOST_IDLE: u64 = 10;

// Neither held nor pinned: it stands in the recency list.
pub fn is_listed(e: Entry) -> bool
    ensures { result ≡ is_listed e }
{
    !is_held(e.hold) & !e.pinned
}

// A new entry, with idle count 0 and not pinned.
pub fn new_entry(address: u64, size: u64, dirty: bool, hold: Hold) -> Entry
    ensures { result ≡ new_entry address size dirty hold }
{
    Entry {
        address,
        size,
        dirty,
        idle: 0,
        pinned: false,
        hold,
    }
}

// Written or taken.
pub fn cleaned(e: Entry) -> Entry
    ensures { result ≡ cleaned e }
{
    Entry { dirty: false, ..e }
}

// With another size, and dirty.
pub fn changed_to(size: u64, e: Entry) -> Entry
    ensures { result ≡ changed_to size e }
{
    Entry {
        size,
        dirty: true,
        ..e
    }
}

pub fn with_pin(pinned: bool, e: Entry) -> Entry
    ensures { result ≡ with_pin pinned e }
{
    Entry { pinned, ..e }
}

// Protected once more.
pub fn protected_for(access: Access, e: Entry) -> Entry
    requires { HoldAllowed e.hold }
    ensures { result ≡ protected_for access e }
{
    Entry {
        idle: 0,
        hold: joined(access, e.hold),
        ..e
    }
}

// One hold less; the last to go sets the idle count to 0.
pub fn released(e: Entry) -> Entry
    ensures { result ≡ released e }
{
    let hold = less_one(e.hold);
    let idle = if is_held(hold) { e.idle } else { 0 };
    Entry { idle, hold, ..e }
}

// An epoch older.
pub fn older(idle: u64) -> u64
    ensures { result ≡ min (idle + 1) most_idle }
{
    idle.saturating_add(1).min(MOST_IDLE)
}
