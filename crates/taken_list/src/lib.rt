// A taken list: whether it is bad, and the rows that it names.
#![tactic(auto)]

ghost use Rattle.std.specs.Prelude.{◌≡◌, length};
ghost use Rattle.rules.specs.Limits.{most_rows};
ghost use Rattle.layout.specs.Picture.{addresses, cache_in};
ghost use Rattle.table.specs.Asked.{GoodRows};
ghost use Rattle.table.specs.Told.{found_in};
ghost use Rattle.taken_list.specs.Listed.{dirty_found, JudgedBad};

use table::lookup::{Found, address_row, entry_of, find_near, key_at};
use table::runs::used_len;

pub const MOST_ROWS: usize = 4096;

// Where an address stands among the n, looked for first at the place `near`.
fn find_next(table: &[u64], rows: usize, n: usize, near: usize, address: u64) -> Option<Found>
    requires { GoodRows table.now rows × (n ≡ length (addresses (cache_in table.now).rows)) }
    ensures { result ≡ found_in (cache_in table.now).rows address }
{
    if near < n && key_at(table, rows, near) == address {
        let row = address_row(table, rows, near);
        return Some(Found { place: near, row });
    }
    find_near(table, rows, n, near, address)
}

// The same of an address that is dirty here.
fn find_dirty(table: &[u64], rows: usize, n: usize, near: usize, address: u64) -> Option<Found>
    requires { GoodRows table.now rows × (n ≡ length (addresses (cache_in table.now).rows)) }
    ensures { result ≡ dirty_found (cache_in table.now).rows address }
{
    let found = find_next(table, rows, n, near, address)?;
    if entry_of(table, rows, found.row, address).dirty {
        Some(found)
    } else {
        None
    }
}

// Whether the list names an address twice, or one not dirty here; if not, its rows are noted. Each row that it names is marked, and
// each address is looked for after the one before it. The rows go into an array that is lent: there is no heap for a list.
pub fn bad_list(table: &[u64], rows: usize, list: &[u64], named: &mut [u16; MOST_ROWS]) -> bool
    requires { GoodRows table.now rows × (length named.old ≡ most_rows) }
    ensures { JudgedBad (cache_in table.now).rows list.now named.new result }
{
    let n = used_len(table, rows);
    let mut seen = [false; MOST_ROWS];
    let mut near: usize = 0;
    for (i, address) in list.iter().enumerate() {
        let Some(Found { place, row }) = find_dirty(table, rows, n, near, *address) else {
            return true;
        };
        if seen[row] {
            return true;
        }
        seen[row] = true;
        named[i] = row as u16;
        near = place + 1;
    }
    false
}
