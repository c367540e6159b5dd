// An entry evicted or written, with its order; the answer is its size. The words for orders are the host's, and `given` counts those that
// are in them: there is no heap.
ghost use Rattle.std.specs.Prelude.{◌≡◌, ◌+◌, ◌*◌, ◌<◌, ◌≤◌, length};
ghost use Rattle.rules.specs.declared.order.Kind.TheVariants.{Write, Evict};
ghost use Rattle.rules.specs.Cache.{amend_at};
ghost use Rattle.rules.specs.Entries.{cleaned as cleaned_entry};
ghost use Rattle.rules.specs.Rows.{get};
ghost use Rattle.layout.specs.Leaves.{put_order};
ghost use Rattle.layout.specs.Picture.{cache_in, rest_in};
ghost use Rattle.layout.specs.Holds.{Holds};
ghost use Rattle.table.specs.Asked.{GoodRows, RowOf};
ghost use Rattle.table.specs.Told.{dropped, turned, listed_at, Drops, Gives};

use crate::changes::{clean_row, drop_entry};
use crate::lookup::{place_among, recency_row};
use crate::runs::listed_len;
use entries::cleaned;
use layout::order::order_put;
use layout::place::recency_at;
use layout::row::{entry_at, put_entry};
use layout::run::run_cut;
use layout::{HEADER, WIDTH};
use rules::entry::Entry;
use rules::order::{Kind, Order};

// Gives the order with this number, and answers the size in it.
fn give(orders: &mut [u64], given: usize, kind: Kind, address: u64, size: u64) -> u64
    requires { given * 3 + 3 ≤ length orders.old }
    ensures { (result ≡ size) × (orders.new ≡ put_order given (record { kind = kind; address = address; size = size }) orders.old) }
{
    let order = Order {
        kind,
        address,
        size,
    };
    order_put(orders, given, order);
    size
}

// The entry at a place of the recency list goes, and is the answer.
pub fn drop_listed(table: &mut [u64], rows: usize, pos: usize) -> Entry
    requires { GoodRows table.old rows × (pos < length (cache_in table.old).recency) }
    ensures { Drops (listed_at table.old pos) table.old table.new result }
{
    let row = recency_row(table, rows, pos);
    let e = entry_at(table, row);
    let place = place_among(table, rows, e.address);
    drop_entry(table, rows, e.address, pos, place, row);
    e
}

// The entry at a place of the recency list is evicted, by the order with number `given`.
pub fn evict_at(table: &mut [u64], orders: &mut [u64], rows: usize, pos: usize, given: usize) -> u64
    requires { GoodRows table.old rows × (pos < length (cache_in table.old).recency) × (given * 3 + 3 ≤ length orders.old) }
    ensures { Gives Evict (listed_at table.old pos) (dropped (listed_at table.old pos)) table.old table.new given orders.old orders.new result }
{
    let e = drop_listed(table, rows, pos);
    give(orders, given, Kind::Evict, e.address, e.size)
}

// The entry at an address, whose row is given, is written where it stands.
pub fn write_row(
    table: &mut [u64],
    orders: &mut [u64],
    rows: usize,
    row: usize,
    address: u64,
    given: usize,
) -> u64
    requires { GoodRows table.old rows × RowOf (cache_in table.old).rows address row × (given * 3 + 3 ≤ length orders.old) }
    ensures { Gives Write address (amend_at address cleaned_entry) table.old table.new given orders.old orders.new result }
{
    let size = clean_row(table, rows, row, address);
    give(orders, given, Kind::Write, address, size)
}

// The entry at a place of the recency list is written and keeps its place.
pub fn write_at(table: &mut [u64], orders: &mut [u64], rows: usize, pos: usize, given: usize) -> u64
    requires { GoodRows table.old rows × (pos < length (cache_in table.old).recency) × (given * 3 + 3 ≤ length orders.old) }
    ensures { Gives Write (listed_at table.old pos) (amend_at (listed_at table.old pos) cleaned_entry) table.old table.new given orders.old orders.new result }
{
    let row = recency_row(table, rows, pos);
    let address = table[HEADER + row * WIDTH];
    write_row(table, orders, rows, row, address, given)
}

// The entry at the tail, whose row is given, becomes e, clean, and goes to the head of the list of n.
fn turn_row(table: &mut [u64], rows: usize, n: usize, row: usize, e: Entry)
    requires { GoodRows table.old rows × (0 < n) × (n ≡ length (cache_in table.old).recency) × RowOf (cache_in table.old).rows (listed_at table.old 0) row × (get (cache_in table.old).rows (listed_at table.old 0) ≡ Some e) }
    ensures { Holds table.new (turned (cache_in table.old)) (rest_in table.old) }
{
    put_entry(table, row, cleaned(e));
    let recency = recency_at(rows);
    run_cut(table, recency, n, 0);
    table[recency + (n - 1)] = row as u64;
}

// The entry at the tail of the recency list is written and goes to the head.
pub fn turn_tail(table: &mut [u64], orders: &mut [u64], rows: usize, given: usize) -> u64
    requires { GoodRows table.old rows × (0 < length (cache_in table.old).recency) × (given * 3 + 3 ≤ length orders.old) }
    ensures { Gives Write (listed_at table.old 0) turned table.old table.new given orders.old orders.new result }
{
    let n = listed_len(table, rows);
    let row = recency_row(table, rows, 0);
    let e = entry_at(table, row);
    turn_row(table, rows, n, row, e);
    give(orders, given, Kind::Write, e.address, e.size)
}
