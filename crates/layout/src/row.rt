// A row: the entry in it read, written and cleared.
ghost use Rattle.std.specs.Prelude.{◌≡◌, ◌+◌, ◌≤◌, length, set};
ghost use Rattle.layout.specs.Layout.{width, row_at};
ghost use Rattle.layout.specs.Picture.{entry_of};
ghost use Rattle.layout.specs.Leaves.{put_row};

use crate::WIDTH;
use crate::place::row_at;
use crate::word::{hold_of, hold_word};
use rules::entry::Entry;
use settings_words::flag_word;

// The entry of a row's words; its size is 0 where the row is free. No Option: `entry_of` reads any words so.
#[tactic(auto, unfolding(crate::specs::Picture::entry_of))]
pub fn entry_at(table: &[u64], row: usize) -> Entry
    requires { row_at row + width ≤ length table.now }
    ensures { result ≡ entry_of table.now row }
{
    let at = row_at(row);
    Entry {
        address: table[at],
        size: table[at + 1],
        dirty: table[at + 2] != 0,
        idle: table[at + 3],
        pinned: table[at + 4] != 0,
        hold: hold_of(table[at + 5]),
    }
}

pub fn put_entry(table: &mut [u64], row: usize, e: Entry)
    requires { row_at row + width ≤ length table.old }
    ensures { table.new ≡ put_row row (Some e) table.old }
{
    let own = [
        e.address,
        e.size,
        flag_word(e.dirty),
        e.idle,
        flag_word(e.pinned),
        hold_word(e.hold),
    ];
    words::copy_in(&mut table[row_at(row)..], &own);
}

// The entry in a row is clean.
pub fn clear_dirty(table: &mut [u64], row: usize)
    requires { row_at row + width ≤ length table.old }
    ensures { table.new ≡ set table.old (row_at row + 2) 0 }
{
    table[row_at(row) + 2] = 0;
}

pub fn clear_row(table: &mut [u64], row: usize)
    requires { row_at row + width ≤ length table.old }
    ensures { table.new ≡ put_row row None table.old }
{
    words::copy_in(&mut table[row_at(row)..], &[0; WIDTH]);
}
