// Flush.
ghost use Rattle.std.specs.Prelude.{◌≡◌, [], ◌≤◌, ◌<◌, ◌+◌, ◌*◌, length, get_or};
ghost use Rattle.rules.specs.declared.order.Kind.TheVariants.{Write};
ghost use Rattle.rules.specs.declared.request.Request.TheVariants.{Flush};
ghost use Rattle.rules.specs.Cache.{amend_at};
ghost use Rattle.rules.specs.Entries.{cleaned};
ghost use Rattle.rules.specs.Rows.{dirty_at};
ghost use Rattle.rules.specs.Hosts.{asking};
ghost use Rattle.rules.specs.Requests.{effect};
ghost use Rattle.reasons.specs.Explains.{Explains};
ghost use Rattle.layout.specs.Picture.{addresses, cache_in, rest_in};
ghost use Rattle.refusals.specs.Unrefused.{Unrefused};
ghost use Rattle.room.specs.Did.{Did};
ghost use Rattle.table.specs.Asked.{GoodRows};
ghost use Rattle.table.specs.Told.{Gives};
ghost use Rattle.lists.specs.Flushed.{all_written};

use crate::number::use_number;
use reason_rules::Reason;
use reasons::runs::{Done, one_run};
use table::header::{row_count, set_count};
use table::lookup::{address_row, entry_of, key_at};
use table::orders::write_row;
use table::runs::used_len;

// Whether the entry at a place among the rising addresses is dirty.
fn dirty_among(table: &[u64], rows: usize, place: usize) -> bool
    requires { GoodRows table.now rows × (place < length (addresses (cache_in table.now).rows)) }
    ensures { result ≡ dirty_at (cache_in table.now).rows (get_or (addresses (cache_in table.now).rows) place 0) }
{
    let row = address_row(table, rows, place);
    let address = key_at(table, rows, place);
    let e = entry_of(table, rows, row, address);
    e.dirty
}

// The entry at a place among the rising addresses is written where it stands.
fn write_among(
    table: &mut [u64],
    orders: &mut [u64],
    rows: usize,
    place: usize,
    given: usize,
) -> u64
    requires { GoodRows table.old rows × (place < length (addresses (cache_in table.old).rows)) × (given * 3 + 3 ≤ length orders.old) }
    ensures { Gives Write (get_or (addresses (cache_in table.old).rows) place 0) (amend_at (get_or (addresses (cache_in table.old).rows) place 0) cleaned) table.old table.new given orders.old orders.new result }
{
    let row = address_row(table, rows, place);
    let address = key_at(table, rows, place);
    write_row(table, orders, rows, row, address, given)
}

// Every dirty entry is written by rising address.
fn write_all(table: &mut [u64], orders: &mut [u64], rows: usize) -> usize
    requires { GoodRows table.old rows × (rows * 3 ≤ length orders.old) }
    ensures { Did (all_written (cache_in table.old)) (rest_in table.old) table.new 0 orders.old orders.new result }
{
    let used = used_len(table, rows);
    let mut given: usize = 0;
    for place in 0..used {
        if dirty_among(table, rows, place) {
            write_among(table, orders, rows, place, given);
            given += 1;
        }
    }
    given
}

pub fn flush(table: &mut [u64], orders: &mut [u64]) -> Done
    requires { Unrefused table.old (asking Flush [] (length orders.old)) }
    ensures did { Did (effect (cache_in table.old) [] Flush) (rest_in table.old) table.new 0 orders.old orders.new result.given }
    ensures explains { Explains (cache_in table.old) Flush result }
{
    let rows = row_count(table);
    let given = write_all(table, orders, rows);
    set_count(table, 0);
    use_number(table);
    Done {
        given,
        runs: one_run(Reason::Flush, given),
        change: None,
    }
}
