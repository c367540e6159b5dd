// Insert, where it is not refused.
#![tactic(auto)]

ghost use Rattle.std.specs.Prelude.{◌≡◌, true, false, [], length};
ghost use Rattle.rules.specs.declared.request.Request.TheVariants.{Insert};
ghost use Rattle.rules.specs.Hosts.{asking};
ghost use Rattle.rules.specs.Refusals.{bad_address, bad_size};
ghost use Rattle.rules.specs.Requests.{effect};
ghost use Rattle.rules.specs.Rows.{get, has_free};
ghost use Rattle.layout.specs.Holds.{Holds};
ghost use Rattle.layout.specs.Picture.{cache_in, rest_in};
ghost use Rattle.table.specs.Asked.{GoodRows};
ghost use Rattle.refusals.specs.Unrefused.{Unrefused};
ghost use Rattle.reasons.specs.Explains.{Explains};
ghost use Rattle.room.specs.Did.{Did};
ghost use Rattle.insert.specs.Inserted.{inserted_in};

use admission::admit;
use entries::{count_with, new_entry};
use reasons::runs::{Done, room_alone};
use rules::entry::Hold;
use table::changes::add_entry;
use table::header::{count, row_count, set_count};

// A new entry, dirty, at the head; the byte count adds its size.
fn add_dirty(table: &mut [u64], rows: usize, address: u64, size: u64)
    requires { GoodRows table.old rows × (has_free (cache_in table.old).rows ≡ true) × (get (cache_in table.old).rows address ≡ None) × (bad_address address ≡ false) × (bad_size size ≡ false) }
    ensures { Holds table.new (inserted_in address size (cache_in table.old)) (rest_in table.old) }
{
    add_entry(table, rows, new_entry(address, size, true, Hold::Unheld));
    set_count(table, count_with(size, count(table)));
}

pub fn insert(table: &mut [u64], orders: &mut [u64], address: u64, size: u64) -> Done
    requires { Unrefused table.old (asking (Insert address size) [] (length orders.old)) }
    ensures did { Did (effect (cache_in table.old) [] (Insert address size)) (rest_in table.old) table.new 0 orders.old orders.new result.given }
    ensures explains { Explains (cache_in table.old) (Insert address size) result }
{
    let rows = row_count(table);
    let admitted = admit(table, orders, rows, size);
    add_dirty(table, rows, address, size);
    Done {
        given: admitted.given,
        runs: room_alone(admitted.runs),
        change: admitted.change,
    }
}
