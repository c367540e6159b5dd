// Why a request is refused: its tests, as the rules order them.
#![tactic(auto, unfolding(rules::specs::Refusals::refusal_of))]

ghost use Rattle.std.specs.Prelude.{◌≡◌};
ghost use Rattle.rules.specs.Hosts.{asking};
ghost use Rattle.rules.specs.Refusals.{refusal_of};
ghost use Rattle.rules.specs.Answers.{verdict_of};
ghost use Rattle.layout.specs.Picture.{cache_in};
ghost use Rattle.table.specs.Asked.{GoodRows};
ghost use Rattle.refusals.specs.Named.{found_for};

use rules::answer::Refusal;
use rules::request::Request;
use table::lookup::Found;

pub mod named;

// The first of the request's tests that passes. The address that it names was looked for before.
pub fn refusal_of(
    table: &[u64],
    rows: usize,
    found: Option<Found>,
    lent: usize,
    message: &[u8],
    request: Request,
) -> Result<(), Refusal>
    requires { GoodRows table.now rows × (found ≡ found_for (cache_in table.now).rows request) }
    ensures { result ≡ verdict_of (refusal_of (cache_in table.now) (asking request message.now lent)) }
{
    match request {
        Request::Insert { address, size } => {
            admission_tests::insert(table, rows, found, lent, address, size)
        }
        Request::Protect {
            access,
            address,
            size,
        } => admission_tests::protect(table, rows, found, lent, access, address, size),
        Request::Release { address } => entry_tests::release(table, rows, found, lent, address),
        Request::ReleaseChanged { address, size } => {
            entry_tests::release_changed(table, rows, found, lent, address, size)
        }
        Request::Pin { address } => entry_tests::pin(table, rows, found, address),
        Request::Unpin { address } => entry_tests::unpin(table, rows, found, address),
        Request::Resize { address, size } => entry_tests::resize(table, rows, found, address, size),
        Request::Discard { address } => entry_tests::discard(table, rows, found, address),
        Request::Flush => table_tests::flush(table, rows, lent),
        Request::Sync => table_tests::sync(table, rows, lent),
        Request::Take => table_tests::take::take(table, rows, message),
        Request::Configure(s) => table_tests::configure(table, rows, lent, s),
    }
}
