// The table of a fresh cache.
ghost use Rattle.std.specs.Prelude.{◌≡◌, ◌+◌, ◌≤◌, length, drop};
ghost use Rattle.settings_words.specs.FloatsFit.{FloatsFit};
ghost use Rattle.rules.specs.Cache.{fresh};
ghost use Rattle.layout.specs.Layout.{layout_words};
ghost use Rattle.layout.specs.Picture.{encode};
ghost use Rattle.layout.specs.Leaves.{fill_part};

use crate::header::put_settings;
use crate::place::recency_at;
use crate::word::mode_word;
use crate::{HEADER, ONES, VERSION, WIDTH};
use settings::{Mode, Settings};

// The number of a fresh cache's first list.
const FIRST_NUMBER: u64 = 1;

// Making room has found nothing yet.
const NOT_EXCEEDED: u64 = 0;

// Writes v over the n words at `at`.
pub fn fill_part(table: &mut [u64], at: usize, n: usize, v: u64)
    requires { at + n ≤ length table.old }
    ensures { table.new ≡ fill_part at n v table.old }
{
    words::fill(&mut table[at..at + n], v);
}

// Writes a fresh cache over the words of a table; the words past the layout stay.
pub fn write_fresh(table: &mut [u64], rows: usize, mode: Mode, threshold: u64, s: Settings)
    requires { layout_words rows ≤ length table.old }
    ensures table_after { table.new ≡ encode (fresh rows mode threshold s) (drop (layout_words rows) table.old) }
    ensures floats_fit { FloatsFit s }
{
    let head = [
        VERSION,
        rows as u64,
        mode_word(mode),
        threshold,
        s.initial,
        0,
        0,
        0,
        FIRST_NUMBER,
        NOT_EXCEEDED,
    ];
    words::copy_in(table, &head);
    put_settings(table, s);
    fill_part(table, HEADER, rows * WIDTH, 0);
    fill_part(table, recency_at(rows), rows + rows, ONES);
}
