// Opening a cache in a lent table.
ghost use Rattle.std.specs.Prelude.{◌≡◌, not, ◌||◌, eqb, leb, ltb};
ghost use Rattle.rules.specs.Limits.{most_rows, most_threshold};
ghost use Rattle.layout.specs.Layout.{layout_words};
ghost use Rattle.cache.specs.Tables.{opened, open_words};

use layout::fresh::write_fresh;
use layout::place::layout_words;
use rules::answer::Refusal;
use settings::{Mode, Settings, first_bad_field};

const MOST_ROWS: u64 = 4096;

const MOST_THRESHOLD: u64 = 1073741824;

// A row count out of limits, or too few words for it.
fn bad_rows(rows: u64, words: usize) -> bool
    ensures { result ≡ (eqb rows 0 || ltb most_rows rows || not (leb (layout_words rows) words)) }
{
    if rows == 0 {
        return true;
    }
    if MOST_ROWS < rows {
        return true;
    }
    words < layout_words(rows as usize)
}

fn bad_threshold(threshold: u64) -> bool
    ensures { result ≡ (eqb threshold 0 || ltb most_threshold threshold) }
{
    (threshold == 0) | (MOST_THRESHOLD < threshold)
}

// Opens a cache with so many rows: the table then holds a fresh one.
pub fn open(
    table: &mut [u64],
    rows: u64,
    mode: Mode,
    threshold: u64,
    s: Settings,
) -> Result<u64, Refusal>
    ensures { opened result table.new ≡ open_words table.old rows mode threshold s }
{
    if bad_rows(rows, table.len()) {
        return Err(Refusal::Table);
    }
    if bad_threshold(threshold) {
        return Err(Refusal::Mode);
    }
    let field = first_bad_field(s, true);
    if field != 0 {
        return Err(Refusal::Setting(field));
    }
    write_fresh(table, rows as usize, mode, threshold, s);
    Ok(0)
}
