// An entry's row taken off the recency list, or put at its head. Whether it stands there, and whether it is to, are flags: `Off` and
// `put_on` say what either comes to.
ghost use Rattle.std.specs.Prelude.{◌≡◌, ◌+◌, ◌<◌, length};
ghost use Rattle.rules.specs.Addresses.{elem};
ghost use Rattle.layout.specs.Layout.{recency_at};
ghost use Rattle.layout.specs.Picture.{cache_in, rest_in};
ghost use Rattle.table.specs.Asked.{GoodRows, RowOf};
ghost use Rattle.table.specs.Told.{Off, put_on};

use crate::lookup::recency_place;
use crate::runs::listed_len;
use layout::place::recency_at;
use layout::run::run_cut;

// The address leaves the list, if it is there; the answer is the list's length then.
pub fn list_off(table: &mut [u64], rows: usize, row: usize, address: u64, was: bool) -> usize
    requires { GoodRows table.old rows × RowOf (cache_in table.old).rows address row × (was ≡ elem address (cache_in table.old).recency) }
    ensures { Off (cache_in table.old) (rest_in table.old) address table.new result }
{
    let n = listed_len(table, rows);
    if was {
        let pos = recency_place(table, rows, row, address);
        run_cut(table, recency_at(rows), n, pos);
        return n - 1;
    }
    n
}

// The row goes to the head of a list of n, if it is to be there.
pub fn list_on(table: &mut [u64], rows: usize, n: usize, row: usize, on: bool)
    requires { recency_at rows + n < length table.old }
    ensures { table.new ≡ put_on on rows n row table.old }
{
    if on {
        table[recency_at(rows) + n] = row as u64;
    }
}
