// A size named for an entry: resize, and what a changed release shares with it.
#![tactic(auto)]

ghost use Rattle.std.specs.Prelude.{◌≡◌, false, []};
ghost use Rattle.rules.specs.declared.request.Request.TheVariants.{Resize};
ghost use Rattle.rules.specs.Hosts.{asking};
ghost use Rattle.rules.specs.Refusals.{bad_size};
ghost use Rattle.rules.specs.Requests.{named, growth, effect};
ghost use Rattle.rules.specs.Rows.{get};
ghost use Rattle.reason_rules.specs.Reasons.{flash_change, changes_of};
ghost use Rattle.reasons.specs.Changes.{change_of};
ghost use Rattle.layout.specs.Picture.{cache_in, rest_in};
ghost use Rattle.layout.specs.Holds.{Holds};
ghost use Rattle.table.specs.Asked.{GoodRows, RowOf};
ghost use Rattle.refusals.specs.Unrefused.{Unrefused};

use entries::{changed_to, count_with};
use reason_rules::Change;
use rules::entry::Entry;
use table::changes::set_entry;
use table::header::{count, row_count, set_count};
use table::lookup::entry_of;

// A size named for an entry: the flash by its growth, whose change is the answer, and the byte count if it was clean.
pub fn name_size(table: &mut [u64], rows: usize, e: Entry, size: u64) -> Option<Change>
    requires { GoodRows table.old rows × (get (cache_in table.old).rows e.address ≡ Some e) × (bad_size size ≡ false) }
    ensures holds { Holds table.new (named e.address size (cache_in table.old)) (rest_in table.old) }
    ensures change { result ≡ change_of (flash_change (growth e.address size (cache_in table.old)) (cache_in table.old)) }
{
    let change = flash::flash(table, rows, size.saturating_sub(e.size));
    if e.dirty {
        return change;
    }
    set_count(table, count_with(size, count(table)));
    change
}

// The answer is the change of the maximum.
pub fn resize(table: &mut [u64], row: usize, address: u64, size: u64) -> Option<Change>
    requires { Unrefused table.old (asking (Resize address size) [] 0) × RowOf (cache_in table.old).rows address row }
    ensures holds { Holds table.new (effect (cache_in table.old) [] (Resize address size)).cache (rest_in table.old) }
    ensures change { result ≡ change_of (changes_of (cache_in table.old) (Resize address size)) }
{
    let rows = row_count(table);
    let e = entry_of(table, rows, row, address);
    let change = name_size(table, rows, e, size);
    set_entry(table, rows, row, changed_to(size, e));
    change
}
