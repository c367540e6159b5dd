// An entry set, dropped, added.
ghost use Rattle.std.specs.Prelude.{◌≡◌, ◌<◌, length};
ghost use Rattle.rules.specs.Allowed.{EntryAllowed};
ghost use Rattle.rules.specs.Cache.{amend_at};
ghost use Rattle.rules.specs.Entries.{is_listed};
ghost use Rattle.rules.specs.Rows.{get, passes};
ghost use Rattle.layout.specs.Layout.{recency_at, addresses_at};
ghost use Rattle.layout.specs.Leaves.{run_cut};
ghost use Rattle.layout.specs.Picture.{addresses, cache_in, rest_in};
ghost use Rattle.layout.specs.Holds.{Holds};
ghost use Rattle.table.specs.Asked.{GoodRows, RowOf, DropAt, Addable};
ghost use Rattle.table.specs.Told.{dropped, added, become, Placed, Cleans};

use crate::listing::list_on;
use crate::lookup::{entry_of, place_among};
use crate::runs::{listed_len, used_len};
use crate::search::free_row;
use entries::is_listed;
use layout::place::{addresses_at, recency_at};
use layout::row::{clear_dirty, clear_row, put_entry};
use layout::run::{run_cut, run_put};
use rules::entry::Entry;

// The entry at an address takes new particulars in its row and keeps its places; it is listed as before.
pub fn set_entry(table: &mut [u64], rows: usize, row: usize, e: Entry)
    requires { GoodRows table.old rows × RowOf (cache_in table.old).rows e.address row × EntryAllowed e × (is_listed e ≡ passes is_listed (get (cache_in table.old).rows e.address)) }
    ensures { Holds table.new (amend_at e.address (become e) (cache_in table.old)) (rest_in table.old) }
{
    put_entry(table, row, e);
}

// The entry at an address, whose row is given, is clean where it stands; the answer is its size.
pub fn clean_row(table: &mut [u64], rows: usize, row: usize, address: u64) -> u64
    requires { GoodRows table.old rows × RowOf (cache_in table.old).rows address row }
    ensures { Cleans address table.old table.new result }
{
    let e = entry_of(table, rows, row, address);
    clear_dirty(table, row);
    e.size
}

// Takes a word out of the recency run and one out of the address run; the words past their lengths are not touched.
fn cut_runs(table: &mut [u64], rows: usize, pos: usize, place: usize)
    requires { GoodRows table.old rows × (pos < length (cache_in table.old).recency) × (place < length (addresses (cache_in table.old).rows)) }
    ensures { table.new ≡ run_cut (addresses_at rows) rows place (run_cut (recency_at rows) rows pos table.old) }
{
    let listed = listed_len(table, rows);
    let used = used_len(table, rows);
    run_cut(table, recency_at(rows), listed, pos);
    run_cut(table, addresses_at(rows), used, place);
}

// The entry at an address goes, from its place in the recency list, its place among the addresses, and its row.
pub fn drop_entry(
    table: &mut [u64],
    rows: usize,
    address: u64,
    pos: usize,
    place: usize,
    row: usize,
)
    requires { GoodRows table.old rows × DropAt (cache_in table.old) address pos place row }
    ensures { Holds table.new (dropped address (cache_in table.old)) (rest_in table.old) }
{
    cut_runs(table, rows, pos, place);
    clear_row(table, row);
}

// A new entry into the lowest free row, at its place among the addresses; it is in no list yet.
fn place_entry(table: &mut [u64], rows: usize, e: Entry) -> usize
    requires { GoodRows table.old rows × Addable (cache_in table.old) e }
    ensures { Placed (cache_in table.old) (rest_in table.old) e table.new result }
{
    let row = free_row(table, rows);
    let place = place_among(table, rows, e.address);
    put_entry(table, row, e);
    run_put(table, addresses_at(rows), rows, place, row as u64);
    row
}

// A new entry comes, at the head of the recency list if it is listed.
pub fn add_entry(table: &mut [u64], rows: usize, e: Entry)
    requires { GoodRows table.old rows × Addable (cache_in table.old) e }
    ensures { Holds table.new (added e (cache_in table.old)) (rest_in table.old) }
{
    let n = listed_len(table, rows);
    let row = place_entry(table, rows, e);
    list_on(table, rows, n, row, is_listed(e));
}
