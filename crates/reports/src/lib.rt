// The report of the cache that a good table holds.
#![tactic(auto)]

ghost use Rattle.std.specs.Prelude.{◌≡◌, if◌then◌else◌};
ghost use Rattle.rules.specs.Reports.{report_of, idle_count, totals_from};
ghost use Rattle.rules.specs.Rows.{held_bytes, total};
ghost use Rattle.layout.specs.Holds.{Good};
ghost use Rattle.layout.specs.Picture.{cache_in};
ghost use Rattle.table.specs.Asked.{GoodRows};

use clean_share::share_missing;
use layout::{HEADER, WIDTH};
use rules::report::Report;
use table::header::{count, maximum, next_number, row_count, settings, threshold};
use table::runs::used_len;

// Sums over the rows.
#[derive(Clone, Copy)]
pub struct Sums {
    // All sizes.
    pub held: u64,
    // The sizes of the dirty entries.
    pub dirty: u64,
    // The sizes of the entries with each idle count.
    pub totals: [u64; 11],
}

// In one pass. A free row is all zero and adds nothing.
pub fn sums_of(table: &[u64], rows: usize) -> Sums
    requires { GoodRows table.now rows }
    ensures { (result.held ≡ held_bytes (cache_in table.now).rows) × (result.dirty ≡ total (λ e. if e.dirty then e.size else 0) (cache_in table.now).rows) × (result.totals ≡ totals_from idle_count 0 11 (cache_in table.now).rows) }
{
    let mut held: u64 = 0;
    let mut dirty: u64 = 0;
    let mut totals = [0u64; 11];
    for i in 0..rows {
        let at = HEADER + i * WIDTH;
        let size = table[at + 1];
        let idle = table[at + 3] as usize;
        held += size;
        if table[at + 2] != 0 {
            dirty += size;
        }
        totals[idle] += size;
    }
    Sums {
        held,
        dirty,
        totals,
    }
}

// Held and dirty bytes, entries, maximum, minimum clean bytes and how many are missing, the byte count,
// whether a list is due, the next list's number, and the totals.
pub fn report_of(table: &[u64]) -> Report
    requires { Good table.now }
    ensures { result ≡ report_of (cache_in table.now) }
{
    let rows = row_count(table);
    let Sums {
        held,
        dirty,
        totals,
    } = sums_of(table, rows);
    let entries = used_len(table, rows);
    let maximum = maximum(table);
    let clean = fraction::size_product(maximum, settings(table).clean);
    let missing = share_missing(table, rows, 0, held);
    let count = count(table);
    Report {
        held,
        dirty,
        entries: entries as u64,
        maximum,
        clean,
        missing,
        count,
        due: threshold(table) < count,
        next: next_number(table),
        totals,
    }
}
