// The clean share: how many bytes it lacks.
#![tactic(auto)]

ghost use Rattle.std.specs.Prelude.{◌≡◌, ◌-◌, ◌<◌, ◌≤◌, length};
ghost use Rattle.rules.specs.Limits.{most_size};
ghost use Rattle.rules.specs.Room.{clean_bytes, share_missing};
ghost use Rattle.rules.specs.Rows.{held_bytes};
ghost use Rattle.layout.specs.Holds.{Good};
ghost use Rattle.layout.specs.Picture.{cache_in};
ghost use Rattle.table.specs.Asked.{GoodRows};
ghost use Rattle.table.specs.Told.{clean_size, listed_at};
ghost use Rattle.clean_share.specs.Wanted.{wanted_bytes};

use layout::row::entry_at;
use table::header::{maximum, settings};
use table::lookup::recency_row;
use table::runs::listed_len;

// The clean bytes that the recency list has to have, beside the unused ones.
fn clean_wanted(table: &[u64], size: u64, held: u64) -> u64
    requires { Good table.now × (size ≤ most_size) × (held ≡ held_bytes (cache_in table.now).rows) }
    ensures { result ≡ wanted_bytes size (cache_in table.now) }
{
    let maximum = maximum(table);
    let minimum = fraction::size_product(maximum, settings(table).clean);
    minimum.saturating_sub(maximum.saturating_sub(held + size))
}

// The size of the entry at a place of the recency list if it is clean, else 0.
fn clean_size(table: &[u64], rows: usize, pos: usize) -> u64
    requires { GoodRows table.now rows × (pos < length (cache_in table.now).recency) }
    ensures { result ≡ clean_size (cache_in table.now).rows (listed_at table.now pos) }
{
    let e = entry_at(table, recency_row(table, rows, pos));
    if e.dirty { 0 } else { e.size }
}

// How many of the bytes wanted the clean entries of the recency list lack. It looks no further than to enough of them.
fn clean_missing(table: &[u64], rows: usize, wanted: u64) -> u64
    requires { GoodRows table.now rows }
    ensures { result ≡ wanted - clean_bytes (cache_in table.now).rows (cache_in table.now).recency }
{
    let mut left = wanted;
    for pos in 0..listed_len(table, rows) {
        let size = clean_size(table, rows, pos);
        if left <= size {
            return 0;
        }
        left -= size;
    }
    left
}

// How many bytes the share lacks for an incoming size; 0 where it is met. The held bytes are those of the cache.
pub fn share_missing(table: &[u64], rows: usize, size: u64, held: u64) -> u64
    requires { GoodRows table.now rows × (size ≤ most_size) × (held ≡ held_bytes (cache_in table.now).rows) }
    ensures { result ≡ share_missing size (cache_in table.now) }
{
    let wanted = clean_wanted(table, size, held);
    if wanted == 0 {
        return 0;
    }
    clean_missing(table, rows, wanted)
}
