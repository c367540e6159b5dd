// An address, its row, and its places in the two runs.
ghost use Rattle.std.specs.Prelude.{◌≡◌, true, ◌<◌, ◌≤◌, length, get_or};
ghost use Rattle.rules.specs.Addresses.{elem};
ghost use Rattle.rules.specs.Rows.{get, dirty_at};
ghost use Rattle.layout.specs.Picture.{addresses, cache_in};
ghost use Rattle.layout.specs.Places.{place_of};
ghost use Rattle.table.specs.Asked.{GoodRows, RowOf, PlaceIn};
ghost use Rattle.table.specs.Told.{found_in, listed_at};

use crate::runs::used_len;
use layout::place::{addresses_at, recency_at};
use layout::row::entry_at;
use layout::{HEADER, WIDTH};
use rules::entry::Entry;

// Where an address stands: its place among the rising addresses, and its row.
#[derive(Clone, Copy)]
pub struct Found {
    pub place: usize,
    pub row: usize,
}

// The row at a place of the recency list.
pub fn recency_row(table: &[u64], rows: usize, pos: usize) -> usize
    requires { GoodRows table.now rows × (pos < length (cache_in table.now).recency) }
    ensures { RowOf (cache_in table.now).rows (listed_at table.now pos) result }
{
    table[recency_at(rows) + pos] as usize
}

// The row at a place among the rising addresses.
pub fn address_row(table: &[u64], rows: usize, place: usize) -> usize
    requires { GoodRows table.now rows × (place < length (addresses (cache_in table.now).rows)) }
    ensures { RowOf (cache_in table.now).rows (get_or (addresses (cache_in table.now).rows) place 0) result }
{
    table[addresses_at(rows) + place] as usize
}

// The address at a place among the rising addresses.
pub fn key_at(table: &[u64], rows: usize, place: usize) -> u64
    requires { GoodRows table.now rows × (place < length (addresses (cache_in table.now).rows)) }
    ensures { result ≡ get_or (addresses (cache_in table.now).rows) place 0 }
{
    table[HEADER + address_row(table, rows, place) * WIDTH]
}

// Where a search between low and high that began at `near` looks next. Any place between them serves; from `near` on the steps
// double, and then what is left is halved.
fn next_look(low: usize, high: usize, near: usize) -> usize
    requires { low < high }
    ensures { (low ≤ result) × (result < high) }
{
    if low <= near {
        if near < high {
            return near;
        }
    } else {
        let step = low - near - 1;
        if step < high - low {
            return low + step;
        }
    }
    low + (high - low) / 2
}

// How many of the n addresses are below this one; `near` is the place to look at first.
pub fn place_of(table: &[u64], rows: usize, n: usize, near: usize, address: u64) -> usize
    requires { GoodRows table.now rows × (n ≡ length (addresses (cache_in table.now).rows)) }
    ensures { result ≡ place_of address (addresses (cache_in table.now).rows) }
{
    let mut low: usize = 0;
    let mut high = n;
    // No search of slices looks at a given place first and then at those near it.
    while low < high {
        let at = next_look(low, high, near);
        let key = key_at(table, rows, at);
        if key == address {
            return at;
        }
        if key < address {
            low = at + 1;
        } else {
            high = at;
        }
    }
    low
}

// How many addresses are below this one.
pub fn place_among(table: &[u64], rows: usize, address: u64) -> usize
    requires { GoodRows table.now rows }
    ensures { result ≡ place_of address (addresses (cache_in table.now).rows) }
{
    let n = used_len(table, rows);
    place_of(table, rows, n, n, address)
}

// Where an address stands among the n, looked for first at the place `near`.
pub fn find_near(table: &[u64], rows: usize, n: usize, near: usize, address: u64) -> Option<Found>
    requires { GoodRows table.now rows × (n ≡ length (addresses (cache_in table.now).rows)) }
    ensures { result ≡ found_in (cache_in table.now).rows address }
{
    let place = place_of(table, rows, n, near, address);
    if place < n && key_at(table, rows, place) == address {
        let row = address_row(table, rows, place);
        return Some(Found { place, row });
    }
    None
}

// Where an address stands.
pub fn find(table: &[u64], rows: usize, address: u64) -> Option<Found>
    requires { GoodRows table.now rows }
    ensures { result ≡ found_in (cache_in table.now).rows address }
{
    let n = used_len(table, rows);
    find_near(table, rows, n, n, address)
}

// The entry at an address that is there, whose row is given.
pub fn entry_of(table: &[u64], rows: usize, row: usize, address: u64) -> Entry
    requires { GoodRows table.now rows × RowOf (cache_in table.now).rows address row }
    ensures { get (cache_in table.now).rows address ≡ Some result }
{
    entry_at(table, row)
}

// Whether the entry at a place of the recency list is dirty.
pub fn dirty_at(table: &[u64], rows: usize, pos: usize) -> bool
    requires { GoodRows table.now rows × (pos < length (cache_in table.now).recency) }
    ensures { result ≡ dirty_at (cache_in table.now).rows (listed_at table.now pos) }
{
    entry_at(table, recency_row(table, rows, pos)).dirty
}

// The place of a listed address, whose row is given, in the recency list. It is listed, so the search finds it.
pub fn recency_place(table: &[u64], rows: usize, row: usize, address: u64) -> usize
    requires { GoodRows table.now rows × RowOf (cache_in table.now).rows address row × (elem address (cache_in table.now).recency ≡ true) }
    ensures { PlaceIn (cache_in table.now).recency address result }
{
    let at = recency_at(rows);
    let run = &table[at..at + rows];
    run.iter()
        .position(|word| *word == row as u64)
        .unwrap_or(rows)
}
