// Age-out's walk over the recency list.
ghost use Rattle.std.specs.Prelude.{◌≡◌, ◌<◌, length};
ghost use Rattle.rules.specs.Cache.{start};
ghost use Rattle.rules.specs.Resizing.{aged_at, evict_aged};
ghost use Rattle.rules.specs.Refusals.{is_alone};
ghost use Rattle.layout.specs.Picture.{cache_in, rest_in};
ghost use Rattle.room.specs.Did.{Did, Fits};
ghost use Rattle.table.specs.Asked.{GoodRows};
ghost use Rattle.table.specs.Told.{listed_at};

use entries::is_alone;
use layout::row::entry_at;
use settings::Mode;
use table::lookup::{dirty_at, recency_row};
use table::orders::{evict_at, write_at};
use table::runs::listed_len;

// Whether the entry at a place of the recency list has an idle count of at least the epochs.
fn aged_at(table: &[u64], rows: usize, pos: usize, epochs: u64) -> bool
    requires { GoodRows table.now rows × (pos < length (cache_in table.now).recency) }
    ensures { result ≡ aged_at epochs (cache_in table.now) (listed_at table.now pos) }
{
    let row = recency_row(table, rows, pos);
    let e = entry_at(table, row);
    epochs <= e.idle
}

// From tail to head, clean entries that aged out are evicted; dirty ones are written first, or kept. Only one that is kept moves the
// place on, and each that goes shortens the list, so this is no range.
fn expel(
    table: &mut [u64],
    orders: &mut [u64],
    rows: usize,
    writes: bool,
    epochs: u64,
    before: usize,
) -> usize
    requires { GoodRows table.old rows × (writes ≡ is_alone (cache_in table.old).mode) × Fits (cache_in table.old) before orders.old }
    ensures { Did (evict_aged epochs (cache_in table.old).recency (start (cache_in table.old))) (rest_in table.old) table.new before orders.old orders.new result }
{
    let mut listed = listed_len(table, rows);
    let mut pos: usize = 0;
    let mut given = before;
    while pos < listed {
        if !aged_at(table, rows, pos, epochs) {
            pos += 1;
        } else if !dirty_at(table, rows, pos) {
            evict_at(table, orders, rows, pos, given);
            given += 1;
            listed -= 1;
        } else if writes {
            write_at(table, orders, rows, pos, given);
            given += 1;
        } else {
            pos += 1;
        }
    }
    given
}

// From tail to head, entries of the recency list with an idle count of at least the epochs go.
pub fn evict_aged(
    table: &mut [u64],
    orders: &mut [u64],
    rows: usize,
    mode: Mode,
    epochs: u64,
    before: usize,
) -> usize
    requires { GoodRows table.old rows × (mode ≡ (cache_in table.old).mode) × Fits (cache_in table.old) before orders.old }
    ensures { Did (evict_aged epochs (cache_in table.old).recency (start (cache_in table.old))) (rest_in table.old) table.new before orders.old orders.new result }
{
    let writes = is_alone(mode);
    expel(table, orders, rows, writes, epochs, before)
}
