// A run of row numbers: its words before the all ones, the rows that they name, and their addresses.
ghost use Rattle.std.specs.Prelude.{◌≤◌};
ghost use Rattle.rules.specs.Limits.{most_rows};
ghost use Rattle.judge.specs.Fits.{Says, Named, Unmarked, Marked, OrderFits};

use crate::MOST_ROWS;
use crate::rows::Rows;
use layout::ONES;

// The words up to the last that is not all ones.
pub fn named(run: &[u64]) -> &[u64]
    ensures { Named run.now result.now }
{
    let length = run
        .iter()
        .rposition(|word| *word != ONES)
        .map_or(0, |last| last + 1);
    &run[..length]
}

// Whether the words are numbers of rows, which are then marked. The marks are lent, since an
// Option<[bool; MOST_ROWS]> is copied on its way out: 1.11 times the time of judge with 64 rows and
// 1.33 with 16, and judging may take 1.03 times that of the same by hand.
pub fn mark_rows(named: &[u64], rows: usize, marks: &mut [bool; MOST_ROWS]) -> bool
    requires few { rows ≤ most_rows }
    requires none { Unmarked marks.old }
    ensures { Marked result named.now rows marks.new }
{
    for word in named {
        let row = *word as usize;
        if rows <= row {
            return false;
        }
        marks[row] = true;
    }
    true
}

// The words are numbers of rows whose addresses rise and stay below all ones. The first of these rows
// is used; the others then are, since a free row has address 0.
pub fn addresses_rise(rows: &Rows, named: &[u64]) -> bool
    ensures { Says result (OrderFits rows.now.table.now named.now rows.now.count) }
{
    let Some((lowest, higher)) = named.split_first() else {
        return true;
    };
    let Some(first) = rows.get(*lowest) else {
        return false;
    };
    if first.size == 0 {
        return false;
    }
    let mut last = first.address;
    for word in higher {
        let Some(next) = rows.get(*word) else {
            return false;
        };
        if next.address <= last {
            return false;
        }
        last = next.address;
    }
    last != ONES
}
