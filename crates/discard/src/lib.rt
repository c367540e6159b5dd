// Discard, of an address for which it is not refused.
#![tactic(auto)]

ghost use Rattle.std.specs.Prelude.{◌≡◌, []};
ghost use Rattle.rules.specs.declared.request.Request.TheVariants.{Discard};
ghost use Rattle.rules.specs.Hosts.{asking};
ghost use Rattle.rules.specs.Requests.{effect};
ghost use Rattle.layout.specs.Holds.{Holds};
ghost use Rattle.layout.specs.Picture.{cache_in, rest_in};
ghost use Rattle.refusals.specs.Unrefused.{Unrefused};
ghost use Rattle.table.specs.Told.{found_in};

use table::changes::drop_entry;
use table::header::row_count;
use table::lookup::{Found, recency_place};

// An address that is not in the cache is accepted without effect.
pub fn discard(table: &mut [u64], found: Option<Found>, address: u64)
    requires { Unrefused table.old (asking (Discard address) [] 0) × (found ≡ found_in (cache_in table.old).rows address) }
    ensures { Holds table.new (effect (cache_in table.old) [] (Discard address)).cache (rest_in table.old) }
{
    let rows = row_count(table);
    let Some(at) = found else {
        return;
    };
    let pos = recency_place(table, rows, at.row, address);
    drop_entry(table, rows, address, pos, at.place, at.row);
}
