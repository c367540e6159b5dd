// Both steps.
ghost use Rattle.std.specs.Prelude.{◌≡◌, ◌+◌, ◌-◌, ◌≤◌, length};
ghost use Rattle.rules.specs.Cache.{start};
ghost use Rattle.rules.specs.Limits.{most_size};
ghost use Rattle.rules.specs.Room.{overfull, room_in, noticed, make_room};
ghost use Rattle.rules.specs.Rows.{held_bytes};
ghost use Rattle.rules.specs.Refusals.{is_alone};
ghost use Rattle.reason_rules.specs.Reasons.{room_reasons};
ghost use Rattle.reasons.specs.Runs.{room_runs};
ghost use Rattle.layout.specs.Holds.{Holds, Good};
ghost use Rattle.layout.specs.Picture.{cache_in, rest_in};
ghost use Rattle.table.specs.Asked.{GoodRows};
ghost use Rattle.room.specs.Did.{Did, Fits};
ghost use Rattle.room.specs.First.{evict_in};
ghost use Rattle.room.specs.Held.{HeldIs};
ghost use Rattle.room.specs.Made.{two_runs};

use crate::held::held_now;
use crate::pass::evict_until;
use crate::share::write_dirty;
use entries::is_alone;
use reasons::runs::{RoomRuns, no_runs, pressing};
use table::header::{maximum, mode, set_exceeded, settings};

// What making room tells.
#[derive(Clone, Copy)]
pub struct Made {
    // The number after the orders given.
    pub given: usize,
    pub runs: RoomRuns,
}

// The number after the orders of the first step, and that after those of both.
#[derive(Clone, Copy)]
struct Steps {
    first: usize,
    given: usize,
}

// What the beginning of making room finds: the held bytes, and whether held plus incoming exceeds the maximum.
#[derive(Clone, Copy)]
struct Found {
    held: u64,
    exceeded: bool,
}

// The first step, and alone the clean share too.
fn room_in(
    table: &mut [u64],
    orders: &mut [u64],
    rows: usize,
    alone: bool,
    size: u64,
    row: bool,
    before: usize,
    known: Option<u64>,
) -> Steps
    requires { GoodRows table.old rows × (alone ≡ is_alone (cache_in table.old).mode) × (size ≤ most_size) × Fits (cache_in table.old) before orders.old × HeldIs known (cache_in table.old) }
    ensures did { Did (room_in (cache_in table.old).mode size row (start (cache_in table.old))) (rest_in table.old) table.new before orders.old orders.new result.given }
    ensures first { (result.first ≡ before + length (evict_in alone size row (cache_in table.old)).orders) × (result.first ≤ result.given) }
{
    let evicted = evict_until(table, orders, rows, alone, size, row, before, known);
    let first = evicted.given;
    if !alone {
        return Steps {
            first,
            given: first,
        };
    }
    let given = write_dirty(table, orders, rows, size, evicted.held, first);
    Steps { first, given }
}

// It is noted if held plus incoming exceeds the maximum, whether or not anything can be evicted.
fn note_exceeded(table: &mut [u64], size: u64, held: u64) -> bool
    requires { Good table.old × (size ≤ most_size) × (held ≡ held_bytes (cache_in table.old).rows) }
    ensures holds { Holds table.new (noticed size (start (cache_in table.old))).cache (rest_in table.old) }
    ensures overfull { result ≡ overfull size (cache_in table.old) }
{
    if maximum(table) < held + size {
        set_exceeded(table, true);
        return true;
    }
    false
}

// The beginning of making room: that, and the held bytes.
fn begin_room(table: &mut [u64], rows: usize, size: u64, known: Option<u64>) -> Found
    requires { GoodRows table.old rows × (size ≤ most_size) × HeldIs known (cache_in table.old) }
    ensures holds { Holds table.new (noticed size (start (cache_in table.old))).cache (rest_in table.old) }
    ensures figures { (result.held ≡ held_bytes (cache_in table.old).rows) × (result.exceeded ≡ overfull size (cache_in table.old)) }
{
    let held = held_now(table, rows, known);
    let exceeded = note_exceeded(table, size, held);
    Found { held, exceeded }
}

// The runs of the orders given from number `before` on.
fn made_by(exceeded: bool, before: usize, steps: Steps) -> Made
    requires { (before ≤ steps.first) × (steps.first ≤ steps.given) }
    ensures { (result.given ≡ steps.given) × (room_runs result.runs ≡ two_runs exceeded (steps.first - before) (steps.given - steps.first)) }
{
    Made {
        given: steps.given,
        runs: RoomRuns {
            reason: pressing(exceeded),
            first: steps.first - before,
            share: steps.given - steps.first,
        },
    }
}

// Room for an incoming size and, if one is wanted, a row.
pub fn make_room(
    table: &mut [u64],
    orders: &mut [u64],
    rows: usize,
    size: u64,
    row: bool,
    before: usize,
    known: Option<u64>,
) -> Made
    requires { GoodRows table.old rows × (size ≤ most_size) × Fits (cache_in table.old) before orders.old × HeldIs known (cache_in table.old) }
    ensures did { Did (make_room size row (start (cache_in table.old))) (rest_in table.old) table.new before orders.old orders.new result.given }
    ensures named { room_runs result.runs ≡ room_reasons size row (start (cache_in table.old)) }
{
    let s = settings(table);
    if !s.evictions {
        return Made {
            given: before,
            runs: no_runs(),
        };
    }
    let found = begin_room(table, rows, size, known);
    let held = Some(found.held);
    let alone = is_alone(mode(table));
    let steps = room_in(table, orders, rows, alone, size, row, before, held);
    made_by(found.exceeded, before, steps)
}
