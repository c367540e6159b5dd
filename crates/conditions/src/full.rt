// Whether a new entry can have a row.
ghost use Rattle.std.specs.Prelude.{◌≡◌};
ghost use Rattle.rules.specs.Addresses.{some_address};
ghost use Rattle.rules.specs.Refusals.{may_evict, no_row};
ghost use Rattle.layout.specs.Picture.{cache_in};
ghost use Rattle.table.specs.Asked.{GoodRows};

use settings::Mode;
use table::header::{mode, settings};
use table::runs::{has_free, listed_len};
use table::search::any_clean;

// Whether some entry of the recency list may be evicted: alone any, else a clean one.
fn any_evictable(table: &[u64], rows: usize) -> bool
    requires { GoodRows table.now rows }
    ensures { result ≡ some_address (may_evict (cache_in table.now).mode (cache_in table.now).rows) (cache_in table.now).recency }
{
    match mode(table) {
        Mode::Alone => 0 < listed_len(table, rows),
        Mode::Lead | Mode::Standby => any_clean(table, rows),
    }
}

// No row is free, and no entry may be evicted.
pub fn no_row(table: &[u64], rows: usize) -> bool
    requires { GoodRows table.now rows }
    ensures { result ≡ no_row (cache_in table.now) }
{
    if has_free(table, rows) {
        return false;
    }
    if !settings(table).evictions {
        return true;
    }
    !any_evictable(table, rows)
}
