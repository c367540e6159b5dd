// The address that a request names.
ghost use Rattle.std.specs.Prelude.{◌≡◌};
ghost use Rattle.layout.specs.Picture.{cache_in};
ghost use Rattle.table.specs.Asked.{GoodRows};
ghost use Rattle.refusals.specs.Named.{found_for, row_found};

use rules::request::Request;
use table::lookup::{Found, find};

// Where it stands; nothing for a request that names none.
pub fn find_named(table: &[u64], rows: usize, request: Request) -> Option<Found>
    requires { GoodRows table.now rows }
    ensures { result ≡ found_for (cache_in table.now).rows request }
{
    match request {
        Request::Insert { address, .. }
        | Request::Protect { address, .. }
        | Request::Release { address }
        | Request::ReleaseChanged { address, .. }
        | Request::Pin { address }
        | Request::Unpin { address }
        | Request::Resize { address, .. }
        | Request::Discard { address } => find(table, rows, address),
        Request::Flush | Request::Sync | Request::Take | Request::Configure(_) => None,
    }
}

// The row of an address that was found; 0 for one that was not, whose row no work asks for.
pub fn row_in(found: Option<Found>) -> usize
    ensures { result ≡ row_found found }
{
    found.map_or(0, |at| at.row)
}
