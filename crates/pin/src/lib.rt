// Pin and unpin, of an entry for which they are not refused.
#![tactic(auto)]

ghost use Rattle.std.specs.Prelude.{[]};
ghost use Rattle.rules.specs.declared.request.Request.TheVariants.{Pin, Unpin};
ghost use Rattle.rules.specs.Hosts.{asking};
ghost use Rattle.rules.specs.Requests.{effect};
ghost use Rattle.layout.specs.Holds.{Holds};
ghost use Rattle.layout.specs.Picture.{cache_in, rest_in};
ghost use Rattle.refusals.specs.Unrefused.{Unrefused};
ghost use Rattle.table.specs.Asked.{RowOf};

use entries::with_pin;
use table::changes::set_entry;
use table::header::row_count;
use table::lookup::entry_of;
use table::touch::touch_entry;

pub fn pin(table: &mut [u64], row: usize, address: u64)
    requires { Unrefused table.old (asking (Pin address) [] 0) × RowOf (cache_in table.old).rows address row }
    ensures { Holds table.new (effect (cache_in table.old) [] (Pin address)).cache (rest_in table.old) }
{
    let rows = row_count(table);
    let e = entry_of(table, rows, row, address);
    set_entry(table, rows, row, with_pin(true, e));
}

// An entry that is then unheld goes to the head.
pub fn unpin(table: &mut [u64], row: usize, address: u64)
    requires { Unrefused table.old (asking (Unpin address) [] 0) × RowOf (cache_in table.old).rows address row }
    ensures { Holds table.new (effect (cache_in table.old) [] (Unpin address)).cache (rest_in table.old) }
{
    let rows = row_count(table);
    let e = entry_of(table, rows, row, address);
    touch_entry(table, rows, row, with_pin(false, e));
}
