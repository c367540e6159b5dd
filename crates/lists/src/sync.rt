// Sync.
ghost use Rattle.std.specs.Prelude.{[], length};
ghost use Rattle.rules.specs.declared.request.Request.TheVariants.{Sync};
ghost use Rattle.rules.specs.Hosts.{asking};
ghost use Rattle.rules.specs.Requests.{effect};
ghost use Rattle.reasons.specs.Explains.{Explains};
ghost use Rattle.layout.specs.Picture.{cache_in, rest_in};
ghost use Rattle.refusals.specs.Unrefused.{Unrefused};
ghost use Rattle.room.specs.Did.{Did};

use crate::number::use_number;
use reason_rules::Reason;
use reasons::runs::{Done, one_run};
use room::write_dirty;
use table::header::{row_count, set_count};
use table::sums::held_bytes;

pub fn sync(table: &mut [u64], orders: &mut [u64]) -> Done
    requires { Unrefused table.old (asking Sync [] (length orders.old)) }
    ensures did { Did (effect (cache_in table.old) [] Sync) (rest_in table.old) table.new 0 orders.old orders.new result.given }
    ensures explains { Explains (cache_in table.old) Sync result }
{
    let rows = row_count(table);
    let held = held_bytes(table, rows);
    let given = write_dirty(table, orders, rows, 0, held, 0);
    set_count(table, 0);
    use_number(table);
    Done {
        given,
        runs: one_run(Reason::Sync, given),
        change: None,
    }
}
