// The cache that a table holds: what each function reads of it, and what it makes of it.
//
//     header     the words before the rows
//     runs       how many rows are listed and used
//     lookup     an address, its row, its places in the runs
//     sums       bytes over the rows or over the recency list
//     search     whether some entry passes a test, and the lowest free row
//     changes    an entry set, dropped, added
//     listing    an entry's row taken off the recency list or put at its head
//     touch      an entry changed as a request on it does
//     orders     an entry evicted or written, with its order
//     idle       all idle counts
//
// A function asks that the table is good: its words are those of a steady cache. `rows` is the number of rows.
#![tactic(auto)]

pub mod changes;
pub mod header;
pub mod idle;
mod listing;
pub mod lookup;
pub mod orders;
pub mod runs;
pub mod search;
pub mod sums;
pub mod touch;
