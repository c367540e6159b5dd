// Whether some entry passes a test, and the lowest free row.
ghost use Rattle.std.specs.Prelude.{◌≡◌};
ghost use Rattle.rules.specs.Addresses.{some_address};
ghost use Rattle.rules.specs.Entries.{is_held};
ghost use Rattle.rules.specs.Rows.{clean_at, some_entry};
ghost use Rattle.layout.specs.Picture.{cache_in};
ghost use Rattle.layout.specs.Places.{lowest_free};
ghost use Rattle.table.specs.Asked.{GoodRows};

use crate::lookup::dirty_at;
use crate::runs::listed_len;
use layout::{HEADER, WIDTH};

// Whether the recency list has a clean entry.
pub fn any_clean(table: &[u64], rows: usize) -> bool
    requires { GoodRows table.now rows }
    ensures { result ≡ some_address (clean_at (cache_in table.now).rows) (cache_in table.now).recency }
{
    for i in 0..listed_len(table, rows) {
        if !dirty_at(table, rows, i) {
            return true;
        }
    }
    false
}

// Whether some entry is held.
pub fn any_held(table: &[u64], rows: usize) -> bool
    requires { GoodRows table.now rows }
    ensures { result ≡ some_entry (λ e. is_held e.hold) (cache_in table.now).rows }
{
    for i in 0..rows {
        if table[HEADER + i * WIDTH + 5] != 0 {
            return true;
        }
    }
    false
}

// The lowest free row, or the number of rows where none is free. No Option: `lowest_free` counts so, and its one caller has a free row.
pub fn free_row(table: &[u64], rows: usize) -> usize
    requires { GoodRows table.now rows }
    ensures { result ≡ lowest_free (cache_in table.now).rows }
{
    for i in 0..rows {
        if table[HEADER + i * WIDTH + 1] == 0 {
            return i;
        }
    }
    rows
}
