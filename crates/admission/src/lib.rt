// The room that is made for a new entry.
#![tactic(auto)]

ghost use Rattle.std.specs.Prelude.{◌≡◌, ◌≤◌, true};
ghost use Rattle.rules.specs.Cache.{start};
ghost use Rattle.rules.specs.Limits.{most_size};
ghost use Rattle.rules.specs.Resizing.{flashed};
ghost use Rattle.rules.specs.Room.{make_room};
ghost use Rattle.reason_rules.specs.Reasons.{room_reasons, flash_change};
ghost use Rattle.reasons.specs.Changes.{change_of};
ghost use Rattle.reasons.specs.Runs.{room_runs};
ghost use Rattle.layout.specs.Picture.{cache_in, rest_in};
ghost use Rattle.room.specs.Did.{Did, Fits};
ghost use Rattle.table.specs.Asked.{GoodRows};

use reason_rules::Change;
use reasons::runs::RoomRuns;
use room::make_room;

#[derive(Clone, Copy)]
pub struct Admitted {
    // The number after the orders given.
    pub given: usize,
    pub runs: RoomRuns,
    // Of the maximum, by the flash.
    pub change: Option<Change>,
}

// The flash of an incoming size, and then room for it and for a row.
pub fn admit(table: &mut [u64], orders: &mut [u64], rows: usize, size: u64) -> Admitted
    requires { GoodRows table.old rows × (size ≤ most_size) × Fits (cache_in table.old) 0 orders.old }
    ensures did { Did (make_room size true (start (flashed size (cache_in table.old)))) (rest_in table.old) table.new 0 orders.old orders.new result.given }
    ensures named { (room_runs result.runs ≡ room_reasons size true (start (flashed size (cache_in table.old)))) × (result.change ≡ change_of (flash_change size (cache_in table.old))) }
{
    let change = flash::flash(table, rows, size);
    let made = make_room(table, orders, rows, size, true, 0, None);
    Admitted {
        given: made.given,
        runs: made.runs,
        change,
    }
}
