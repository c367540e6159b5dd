// The words of a table, with n rows:
//
//     0            version
//     1            row count
//     2            mode: 0 alone, 1 lead, 2 standby
//     3            dirty-byte threshold
//     4            maximum
//     5, 6         accesses, hits
//     7            byte count
//     8            the next list's number
//     9            1 if making room found held plus incoming above the maximum since the counters restarted, else 0
//     10 .. 30     settings
//     31           rows, 6 words each: address, size, dirty, idle, pinned, hold; all zero where the row is free
//     31 + 6 n     recency run: the rows of the recency list from the tail to the head, then all ones
//     31 + 7 n     address run: the used rows by rising address, then all ones
//     31 + 8 n     the end; the words from here on are never touched
//
// A row is named by its number, and a run ends with all ones: the words are lent by the host, and there is no heap.
//
// The functions read and write one part each. They ask only that the part lies in the table, and state every word.
#![tactic(auto)]

pub mod fresh;
pub mod header;
pub mod order;
pub mod place;
pub mod row;
pub mod run;
pub mod word;

// "SPLDVT" and the layout's number.
pub const VERSION: u64 = 0x5350_4c44_5654_0003;

// The word that names no row.
pub use words::ONES;

// Where each header word stands.
pub const VERSION_AT: usize = 0;

pub const ROW_COUNT_AT: usize = 1;

pub const MODE_AT: usize = 2;

pub const THRESHOLD_AT: usize = 3;

pub const MAXIMUM_AT: usize = 4;

pub const ACCESSES_AT: usize = 5;

pub const HITS_AT: usize = 6;

pub const COUNT_AT: usize = 7;

pub const NEXT_AT: usize = 8;

pub const EXCEEDED_AT: usize = 9;

pub const SETTINGS_AT: usize = 10;

// The words before the rows.
pub const HEADER: usize = 31;

// The words of a row.
pub const WIDTH: usize = 6;
