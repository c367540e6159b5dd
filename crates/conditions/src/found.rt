// The entry at an address that was looked for.
ghost use Rattle.std.specs.Prelude.{◌≡◌};
ghost use Rattle.rules.specs.Rows.{get};
ghost use Rattle.layout.specs.Picture.{cache_in};
ghost use Rattle.table.specs.Asked.{GoodRows};
ghost use Rattle.table.specs.Told.{found_in};

use rules::entry::Entry;
use table::lookup::{Found, entry_of};

// The entry at the address, where it was found.
#[tactic(auto, unfolding(table::specs::Told::found_in))]
pub fn entry_found(table: &[u64], rows: usize, found: Option<Found>, address: u64) -> Option<Entry>
    requires { GoodRows table.now rows × (found ≡ found_in (cache_in table.now).rows address) }
    ensures { result ≡ get (cache_in table.now).rows address }
{
    let at = found?;
    Some(entry_of(table, rows, at.row, address))
}
