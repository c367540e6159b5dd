// One row: its words, and whether a free row or an entry may have them.
ghost use Rattle.std.specs.Prelude.{◌≡◌, ◌+◌, ◌≤◌, length};
ghost use Rattle.layout.specs.Layout.{width, row_at};
ghost use Rattle.judge.specs.Fits.{Says, words_at, SizeFits, FreeFits, EntryFits};

use layout::{HEADER, WIDTH};

const MOST_SIZE: u64 = 134217728;

const MOST_IDLE: u64 = 10;

// The hold word of a writer.
const WRITER: u64 = 65536;

// The words of a row, in their order.
#[derive(Clone, Copy, PartialEq)]
pub struct RowWords {
    pub address: u64,
    pub size: u64,
    pub dirty: u64,
    pub idle: u64,
    pub pinned: u64,
    pub hold: u64,
}

const FREE: RowWords = RowWords {
    address: 0,
    size: 0,
    dirty: 0,
    idle: 0,
    pinned: 0,
    hold: 0,
};

pub fn words_at(table: &[u64], row: usize) -> RowWords
    requires { row_at row + width ≤ length table.now }
    ensures { result ≡ words_at table.now row }
{
    let at = HEADER + row * WIDTH;
    RowWords {
        address: table[at],
        size: table[at + 1],
        dirty: table[at + 2],
        idle: table[at + 3],
        pinned: table[at + 4],
        hold: table[at + 5],
    }
}

// The size of an entry.
pub fn size_allowed(size: u64) -> bool
    ensures { Says result (SizeFits size) }
{
    (1..=MOST_SIZE).contains(&size)
}

// A free row: all its words are 0, and it is not listed.
pub fn free_allowed(row: RowWords, listed: bool) -> bool
    ensures { Says result (FreeFits row listed) }
{
    !listed && row == FREE
}

// A row with the size of an entry: its other words but the address, which is judged along the address
// run. It is listed if it is neither held nor pinned. The tests are joined by &: with && there is a
// branch for each, and judge takes 1.05 times as long.
pub fn entry_allowed(row: RowWords, listed: bool) -> bool
    requires { SizeFits row.size }
    ensures { Says result (EntryFits row listed) }
{
    (row.dirty <= 1)
        & (row.idle <= MOST_IDLE)
        & (row.pinned <= 1)
        & (row.hold <= WRITER)
        & (listed == ((row.hold == 0) & (row.pinned == 0)))
}
