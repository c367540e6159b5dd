// The second step of making room, and sync: dirty entries are written until the clean share is met.
ghost use Rattle.std.specs.Prelude.{◌≡◌, ◌≤◌};
ghost use Rattle.rules.specs.Cache.{start};
ghost use Rattle.rules.specs.Limits.{most_size};
ghost use Rattle.rules.specs.Room.{share_missing, write_dirty};
ghost use Rattle.rules.specs.Rows.{held_bytes};
ghost use Rattle.layout.specs.Picture.{cache_in, rest_in};
ghost use Rattle.table.specs.Asked.{GoodRows};
ghost use Rattle.room.specs.Did.{Did, Fits};

use clean_share::share_missing;
use table::lookup::dirty_at;
use table::orders::write_at;
use table::runs::listed_len;

// From the tail, while bytes are missing, each dirty entry is written and keeps its place.
fn write_until(
    table: &mut [u64],
    orders: &mut [u64],
    rows: usize,
    size: u64,
    lacked: u64,
    before: usize,
) -> usize
    requires { GoodRows table.old rows × (lacked ≡ share_missing size (cache_in table.old)) × Fits (cache_in table.old) before orders.old }
    ensures { Did (write_dirty size (cache_in table.old).recency (start (cache_in table.old))) (rest_in table.old) table.new before orders.old orders.new result }
{
    let listed = listed_len(table, rows);
    let mut missing = lacked;
    let mut given = before;
    for pos in 0..listed {
        if missing == 0 {
            return given;
        }
        if dirty_at(table, rows, pos) {
            missing = missing.saturating_sub(write_at(table, orders, rows, pos, given));
            given += 1;
        }
    }
    given
}

// The same, of a cache that has these held bytes.
pub fn write_dirty(
    table: &mut [u64],
    orders: &mut [u64],
    rows: usize,
    size: u64,
    held: u64,
    before: usize,
) -> usize
    requires { GoodRows table.old rows × (size ≤ most_size) × (held ≡ held_bytes (cache_in table.old).rows) × Fits (cache_in table.old) before orders.old }
    ensures { Did (write_dirty size (cache_in table.old).recency (start (cache_in table.old))) (rest_in table.old) table.new before orders.old orders.new result }
{
    let missing = share_missing(table, rows, size, held);
    write_until(table, orders, rows, size, missing, before)
}
