// All idle counts.
ghost use Rattle.std.specs.Prelude.{◌≡◌, ◌+◌, ◌≤◌, length};
ghost use Rattle.layout.specs.Layout.{width, row_at};
ghost use Rattle.layout.specs.Picture.{cache_in, rest_in};
ghost use Rattle.layout.specs.Holds.{Holds};
ghost use Rattle.table.specs.Asked.{GoodRows};
ghost use Rattle.table.specs.Told.{aged, age_words};

use entries::older;
use layout::{HEADER, WIDTH};

// The idle count of a used row rises.
fn age_row(table: &mut [u64], row: usize)
    requires { row_at row + width ≤ length table.old }
    ensures { table.new ≡ age_words row table.old }
{
    let at = HEADER + row * WIDTH;
    if table[at + 1] != 0 {
        table[at + 3] = older(table[at + 3]);
    }
}

// Each idle count rises by one, up to 10.
pub fn age_all(table: &mut [u64], rows: usize)
    requires { GoodRows table.old rows }
    ensures { Holds table.new (aged (cache_in table.old)) (rest_in table.old) }
{
    for i in 0..rows {
        age_row(table, i);
    }
}
