// The work of a request that is not refused.
ghost use Rattle.std.specs.Prelude.{◌≡◌, length};
ghost use Rattle.rules.specs.Hosts.{asking};
ghost use Rattle.rules.specs.Requests.{effect};
ghost use Rattle.reasons.specs.Explains.{Explains};
ghost use Rattle.layout.specs.Picture.{cache_in, rest_in};
ghost use Rattle.refusals.specs.Named.{found_for};
ghost use Rattle.refusals.specs.Unrefused.{Unrefused};
ghost use Rattle.room.specs.Did.{Did};
ghost use Rattle.room.specs.Held.{HeldIs};
ghost use Rattle.cache.specs.Work.{NoTake};

use configure::configure;
use discard::discard;
use insert::insert;
use lists::flush::flush;
use lists::sync::sync;
use pin::{pin, unpin};
use protect::protect;
use reasons::runs::{Done, no_orders};
use refusals::named::row_in;
use release::{release, release_changed};
use resize::resize;
use rules::request::Request;
use table::lookup::Found;

// Does what the request asks for. A take is done by its own function.
pub fn carry_out(
    table: &mut [u64],
    orders: &mut [u64],
    found: Option<Found>,
    message: &[u8],
    request: Request,
    known: Option<u64>,
) -> Done
    requires { Unrefused table.old (asking request message.now (length orders.old)) × NoTake request × (found ≡ found_for (cache_in table.old).rows request) × HeldIs known (cache_in table.old) }
    ensures did { Did (effect (cache_in table.old) message.now request) (rest_in table.old) table.new 0 orders.old orders.new result.given }
    ensures explains { Explains (cache_in table.old) request result }
{
    let row = row_in(found);
    match request {
        Request::Insert { address, size } => insert(table, orders, address, size),
        Request::Protect {
            access,
            address,
            size,
        } => protect(table, orders, found, access, address, size),
        Request::Release { address } => release(table, orders, row, address, known),
        Request::ReleaseChanged { address, size } => {
            release_changed(table, orders, row, address, size)
        }
        Request::Pin { address } => {
            pin(table, row, address);
            no_orders(None)
        }
        Request::Unpin { address } => {
            unpin(table, row, address);
            no_orders(None)
        }
        Request::Resize { address, size } => {
            let change = resize(table, row, address, size);
            no_orders(change)
        }
        Request::Discard { address } => {
            discard(table, found, address);
            no_orders(None)
        }
        Request::Flush => flush(table, orders),
        Request::Sync => sync(table, orders),
        Request::Take => no_orders(None),
        Request::Configure(s) => configure(table, orders, s),
    }
}
