// Judging a lent table: whether its words picture a cache that document 01 allows.
//
// The words of a table are drawn in crate layout. Any words may be lent: too few, too many, or such
// as no cache has. The words past the layout's end are not judged. A table that passes has the words
// of one cache only.
//
//     judge               the header: version, row count, mode and threshold; a table as long as its
//                         rows ask for; settings, maximum, counters, byte count, and whether
//                         the maximum was exceeded
//     parts_allowed       what comes after the header, in one pass for each part:
//         mark_rows       the recency run: row numbers, whose rows are marked
//         rows_allowed    the rows: each free or with an entry, and marked if that is to be listed
//         addresses_rise  the address run: row numbers, whose rows have rising addresses
//
// Neither run is searched for a row that stands twice or is missing: it is enough to count.
// - The rows marked are those to be listed. As many rows are marked as the recency run has words, so
//   no two of its words name one row.
// - Rows with rising addresses are different rows. A free row has address 0, so only the first of them
//   can be free, and that is tested. As many rows are used as the address run has words, so it names
//   all of them.
// - All ones is the largest word, so of rising addresses only the last can be all ones.
#![tactic(auto)]

ghost use Rattle.std.specs.Prelude.{◌≡◌};
ghost use Rattle.judge.specs.Fits.{Says, PartsFit};
ghost use Rattle.judge.specs.Verdict.{judge_words};

mod header;
mod row;
mod rows;
mod runs;

use header::{figures_in, opening_allowed, opening_in, settings_allowed};
use layout::place::{addresses_at, layout_words, recency_at};
use layout::{HEADER, SETTINGS_AT};
use rows::{Rows, rows_allowed};
use runs::{addresses_rise, mark_rows, named};

const MOST_ROWS: usize = 4096;

// The rows of a table, its recency run and its address run, whose end is looked for only where the recency run fits.
// Never inlined: the loops have the registers to themselves, and judge has no marks on its stack when it tests the header.
// Inlined, judge takes 1.14 times as long with free rows, and 3 KB more of stack where the header is refused.
#[inline(never)]
fn parts_allowed(rows: &Rows, recency: &[u64], order: &[u64]) -> bool
    ensures { Says result (PartsFit rows.now.table.now recency.now order.now rows.now.count) }
{
    let recent = named(recency);
    let mut listed = [false; MOST_ROWS];
    if !mark_rows(recent, rows.count, &mut listed) {
        return false;
    }
    let ordered = named(order);
    rows_allowed(rows, &listed, ordered.len(), recent.len()) && addresses_rise(rows, ordered)
}

// Whether the words picture an allowed cache.
pub fn judge(table: &[u64]) -> bool
    ensures { result ≡ judge_words table.now }
{
    if table.len() < HEADER {
        return false;
    }
    let opening = opening_in(table);
    if !opening_allowed(opening) {
        return false;
    }
    let count = opening.rows;
    let recency = recency_at(count);
    let order = addresses_at(count);
    let end = layout_words(count);
    if table.len() < end {
        return false;
    }
    if !settings_allowed(&table[SETTINGS_AT..], figures_in(table)) {
        return false;
    }
    parts_allowed(
        &Rows { table, count },
        &table[recency..order],
        &table[order..end],
    )
}
