// An entry changed as a request on it does: protect, release, unpin.
ghost use Rattle.rules.specs.Allowed.{EntryAllowed};
ghost use Rattle.rules.specs.Cache.{touch};
ghost use Rattle.layout.specs.Picture.{cache_in, rest_in};
ghost use Rattle.layout.specs.Holds.{Holds};
ghost use Rattle.table.specs.Asked.{GoodRows, RowOf};
ghost use Rattle.table.specs.Told.{become};

use crate::listing::{list_off, list_on};
use entries::is_listed;
use layout::row::{entry_at, put_entry};
use rules::entry::Entry;

// The entry at an address takes new particulars; the list loses it and, if it is listed now, has it at the head.
pub fn touch_entry(table: &mut [u64], rows: usize, row: usize, e: Entry)
    requires { GoodRows table.old rows × RowOf (cache_in table.old).rows e.address row × EntryAllowed e }
    ensures { Holds table.new (touch e.address (become e) (cache_in table.old)) (rest_in table.old) }
{
    let was = is_listed(entry_at(table, row));
    let n = list_off(table, rows, row, e.address, was);
    put_entry(table, row, e);
    list_on(table, rows, n, row, is_listed(e));
}
