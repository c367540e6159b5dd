// The rows of a table: each by its words and its mark, and how many of them are used and marked.
ghost use Rattle.std.specs.Prelude.{◌≡◌, ◌≤◌, ◌<◌, MatchOption, length};
ghost use Rattle.layout.specs.Layout.{row_at};
ghost use Rattle.rules.specs.Limits.{most_rows};
ghost use Rattle.judge.specs.Fits.{Says, CountedRows, words_at};

use crate::MOST_ROWS;
use crate::row::{RowWords, entry_allowed, free_allowed, size_allowed, words_at};

// A table with the rows that its header counts.
#[derive(Clone, Copy)]
pub struct Rows<'a> {
    pub table: &'a [u64],
    pub count: usize,
    pub ghost few: { count ≤ most_rows },
    pub ghost whole: { row_at count ≤ length table.now },
}

impl Rows<'_> {
    // The words of the row that a word of a run names, or None if there is no such row.
    pub fn get(&self, word: u64) -> Option<RowWords>
        ensures { MatchOption
            result
            (self.now.count ≤ word)
            (λ w. (word < self.now.count) × (w ≡ words_at self.now.table.now word)) }
    {
        let row = word as usize;
        if row < self.count {
            Some(words_at(self.table, row))
        } else {
            None
        }
    }
}

// Every row is allowed and marked if it is to be listed; so many rows are used, and so many are marked.
pub fn rows_allowed(rows: &Rows, listed: &[bool; MOST_ROWS], used: usize, marked: usize) -> bool
    ensures { Says result (CountedRows rows.now.table.now rows.now.count listed.now used marked) }
{
    let mut entries: usize = 0;
    let mut marks: usize = 0;
    for (i, mark) in listed[..rows.count].iter().enumerate() {
        let row = words_at(rows.table, i);
        if size_allowed(row.size) {
            if !entry_allowed(row, *mark) {
                return false;
            }
            entries += 1;
        } else if !free_allowed(row, *mark) {
            return false;
        }
        marks += usize::from(*mark);
    }
    entries == used && marks == marked
}
