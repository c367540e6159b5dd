// The first step of making room: entries leave until room suffices or the list has nothing to give.
ghost use Rattle.std.specs.Prelude.{◌≡◌, not, ◌&&◌, ◌||◌, ◌≤◌, ltb};
ghost use Rattle.rules.specs.Limits.{most_size};
ghost use Rattle.layout.specs.Picture.{cache_in, rest_in};
ghost use Rattle.table.specs.Asked.{GoodRows};
ghost use Rattle.room.specs.Did.{Fits, Stopped};
ghost use Rattle.room.specs.First.{evict_in};
ghost use Rattle.room.specs.Held.{HeldIs};

use crate::held::held_now;
use table::header::maximum;
use table::lookup::dirty_at;
use table::orders::{evict_at, turn_tail};
use table::runs::{has_free, listed_len};

// What stopped the loop, as `Stopped` says it.
#[derive(Clone, Copy)]
pub enum Stop {
    Enough,
    NothingLeft,
}

#[derive(Clone, Copy)]
pub struct Evicted {
    pub stop: Stop,
    // The held bytes that are left.
    pub held: u64,
    // The number after the orders given.
    pub given: usize,
}

// Held plus incoming exceeds the maximum, or a row is wanted and none is free.
fn lacks(maximum: u64, need: u64, row: bool, free: bool) -> bool
    ensures { result ≡ (ltb maximum need || row && not free) }
{
    (maximum < need) | (row & !free)
}

// While room is lacking, the clean entry nearest the tail is evicted. Alone only the tail is looked at:
// a dirty one is written and moved to the head. Each turn may shorten the list, keep the place or go on, so this is no range.
pub fn evict_until(
    table: &mut [u64],
    orders: &mut [u64],
    rows: usize,
    alone: bool,
    size: u64,
    row: bool,
    before: usize,
    known: Option<u64>,
) -> Evicted
    requires { GoodRows table.old rows × (size ≤ most_size) × Fits (cache_in table.old) before orders.old × HeldIs known (cache_in table.old) }
    ensures { Stopped size row (evict_in alone size row (cache_in table.old)) (rest_in table.old) table.new before orders.old orders.new result }
{
    let maximum = maximum(table);
    let mut held = held_now(table, rows, known);
    let mut free = has_free(table, rows);
    let mut listed = listed_len(table, rows);
    let mut pos: usize = 0;
    let mut given = before;
    let stop = loop {
        if !lacks(maximum, held + size, row, free) {
            break Stop::Enough;
        }
        if listed <= pos {
            break Stop::NothingLeft;
        }
        if !dirty_at(table, rows, pos) {
            held -= evict_at(table, orders, rows, pos, given);
            free = true;
            listed -= 1;
            given += 1;
        } else if alone {
            turn_tail(table, orders, rows, given);
            given += 1;
        } else {
            pos += 1;
        }
    };
    Evicted { stop, held, given }
}
