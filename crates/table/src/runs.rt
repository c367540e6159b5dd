// How many rows are listed and used: the lengths of the two runs.
ghost use Rattle.std.specs.Prelude.{◌≡◌, length, drop};
ghost use Rattle.rules.specs.Rows.{has_free};
ghost use Rattle.layout.specs.Picture.{addresses, cache_in, run_of};
ghost use Rattle.table.specs.Asked.{GoodRows, RunIn};

use layout::ONES;
use layout::place::{addresses_at, recency_at};

// How many words of the run of n words at `at` stand before all ones.
fn run_length(table: &[u64], at: usize, n: usize) -> usize
    requires { RunIn table.now at n }
    ensures { result ≡ length (run_of n (drop at table.now)) }
{
    table[at..at + n].partition_point(|word| *word != ONES)
}

// The length of the recency list.
pub fn listed_len(table: &[u64], rows: usize) -> usize
    requires { GoodRows table.now rows }
    ensures { result ≡ length (cache_in table.now).recency }
{
    run_length(table, recency_at(rows), rows)
}

// The number of entries.
pub fn used_len(table: &[u64], rows: usize) -> usize
    requires { GoodRows table.now rows }
    ensures { result ≡ length (addresses (cache_in table.now).rows) }
{
    run_length(table, addresses_at(rows), rows)
}

// Whether a row is free.
pub fn has_free(table: &[u64], rows: usize) -> bool
    requires { GoodRows table.now rows }
    ensures { result ≡ has_free (cache_in table.now).rows }
{
    used_len(table, rows) < rows
}
