// Release, unchanged and changed, where it is not refused: a hold goes, and when it was the last, room is made for nothing.
#![tactic(auto)]

ghost use Rattle.std.specs.Prelude.{◌≡◌, false, [], length};
ghost use Rattle.rules.specs.declared.request.Request.TheVariants.{Release, ReleaseChanged};
ghost use Rattle.rules.specs.Hosts.{asking};
ghost use Rattle.rules.specs.Requests.{effect};
ghost use Rattle.layout.specs.Picture.{cache_in, rest_in};
ghost use Rattle.refusals.specs.Unrefused.{Unrefused};
ghost use Rattle.room.specs.Did.{Did, Fits};
ghost use Rattle.room.specs.Held.{HeldIs};
ghost use Rattle.table.specs.Asked.{GoodRows, RowOf};
ghost use Rattle.reasons.specs.Explains.{Explains};
ghost use Rattle.reasons.specs.Runs.{room_runs};
ghost use Rattle.release.specs.Unheld.{room_unless_held, reasons_unless_held};

use entries::{changed_to, is_held, less_one, released};
use reasons::runs::{Done, no_runs, room_alone};
use resize::name_size;
use room::{Made, make_room};
use rules::entry::Hold;
use table::header::row_count;
use table::lookup::entry_of;
use table::touch::touch_entry;

// Room for nothing, unless the hold that is left holds the entry.
fn room_unless_held(
    table: &mut [u64],
    orders: &mut [u64],
    rows: usize,
    hold: Hold,
    known: Option<u64>,
) -> Made
    requires { GoodRows table.old rows × Fits (cache_in table.old) 0 orders.old × HeldIs known (cache_in table.old) }
    ensures did { Did (room_unless_held hold (cache_in table.old)) (rest_in table.old) table.new 0 orders.old orders.new result.given }
    ensures named { room_runs result.runs ≡ reasons_unless_held hold (cache_in table.old) }
{
    if is_held(hold) {
        return Made {
            given: 0,
            runs: no_runs(),
        };
    }
    make_room(table, orders, rows, 0, false, 0, known)
}

// The held bytes stay, so a caller that knows them has them summed no more.
pub fn release(
    table: &mut [u64],
    orders: &mut [u64],
    row: usize,
    address: u64,
    known: Option<u64>,
) -> Done
    requires { Unrefused table.old (asking (Release address) [] (length orders.old)) × RowOf (cache_in table.old).rows address row × HeldIs known (cache_in table.old) }
    ensures did { Did (effect (cache_in table.old) [] (Release address)) (rest_in table.old) table.new 0 orders.old orders.new result.given }
    ensures explains { Explains (cache_in table.old) (Release address) result }
{
    let rows = row_count(table);
    let e = entry_of(table, rows, row, address);
    touch_entry(table, rows, row, released(e));
    let made = room_unless_held(table, orders, rows, less_one(e.hold), known);
    Done {
        given: made.given,
        runs: room_alone(made.runs),
        change: None,
    }
}

// The entry takes the size and is dirty first.
pub fn release_changed(
    table: &mut [u64],
    orders: &mut [u64],
    row: usize,
    address: u64,
    size: u64,
) -> Done
    requires { Unrefused table.old (asking (ReleaseChanged address size) [] (length orders.old)) × RowOf (cache_in table.old).rows address row }
    ensures did { Did (effect (cache_in table.old) [] (ReleaseChanged address size)) (rest_in table.old) table.new 0 orders.old orders.new result.given }
    ensures explains { Explains (cache_in table.old) (ReleaseChanged address size) result }
{
    let rows = row_count(table);
    let e = entry_of(table, rows, row, address);
    let change = name_size(table, rows, e, size);
    touch_entry(table, rows, row, released(changed_to(size, e)));
    let made = room_unless_held(table, orders, rows, less_one(e.hold), None);
    Done {
        given: made.given,
        runs: room_alone(made.runs),
        change,
    }
}
