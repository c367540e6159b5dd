// Where a row begins, where the two runs begin in a table with so many rows, and where the layout ends.
ghost use Rattle.std.specs.Prelude.{◌≡◌, ◌≤◌};
ghost use Rattle.layout.specs.Layout.{ones, row_at, recency_at, addresses_at, layout_words};

use crate::{HEADER, WIDTH};

pub fn row_at(row: usize) -> usize
    requires { row_at row ≤ ones }
    ensures { result ≡ row_at row }
{
    HEADER + row * WIDTH
}

pub fn recency_at(rows: usize) -> usize
    requires { recency_at rows ≤ ones }
    ensures { result ≡ recency_at rows }
{
    row_at(rows)
}

pub fn addresses_at(rows: usize) -> usize
    requires { addresses_at rows ≤ ones }
    ensures { result ≡ addresses_at rows }
{
    recency_at(rows) + rows
}

pub fn layout_words(rows: usize) -> usize
    requires { layout_words rows ≤ ones }
    ensures { result ≡ layout_words rows }
{
    addresses_at(rows) + rows
}
