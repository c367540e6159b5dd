// The tests of the requests that may bring an entry in, in the order of judging.
#![tactic(auto, unfolding(rules::specs::Refusals::tests, rules::specs::Refusals::first_of, table::specs::Told::found_in))]

ghost use Rattle.std.specs.Prelude.{◌≡◌, List, ℕ};
ghost use Rattle.rules.specs.declared.request.Request.TheVariants.{Insert, Protect};
ghost use Rattle.rules.specs.Refusals.{tests};
ghost use Rattle.layout.specs.Picture.{cache_in};
ghost use Rattle.table.specs.Asked.{GoodRows};
ghost use Rattle.table.specs.Told.{found_in};
ghost use Rattle.verdicts.specs.Tells.{Tells};

use conditions::found::entry_found;
use conditions::full::no_row;
use entries::{bad_address, bad_size, forbids, too_few_words};
use rules::answer::Refusal;
use rules::request::Access;
use table::lookup::Found;
use verdicts::refuse_if;

pub fn insert(
    table: &[u64],
    rows: usize,
    found: Option<Found>,
    lent: usize,
    address: u64,
    size: u64,
) -> Result<(), Refusal>
    requires { GoodRows table.now rows × (found ≡ found_in (cache_in table.now).rows address) }
    ensures { (list : List ℕ) → Tells result (tests (cache_in table.now) lent list (Insert address size)) }
{
    refuse_if(too_few_words(rows, lent), Refusal::OrderWords)?;
    refuse_if(bad_address(address), Refusal::Address)?;
    refuse_if(bad_size(size), Refusal::Size)?;
    refuse_if(found.is_some(), Refusal::Present)?;
    refuse_if(no_row(table, rows), Refusal::Full)
}

pub fn protect(
    table: &[u64],
    rows: usize,
    found: Option<Found>,
    lent: usize,
    access: Access,
    address: u64,
    size: u64,
) -> Result<(), Refusal>
    requires { GoodRows table.now rows × (found ≡ found_in (cache_in table.now).rows address) }
    ensures { (list : List ℕ) → Tells result (tests (cache_in table.now) lent list (Protect access address size)) }
{
    refuse_if(too_few_words(rows, lent), Refusal::OrderWords)?;
    refuse_if(bad_address(address), Refusal::Address)?;
    refuse_if(bad_size(size), Refusal::Size)?;
    match entry_found(table, rows, found, address) {
        Some(e) => refuse_if(forbids(e.hold, access), Refusal::Held),
        None => refuse_if(no_row(table, rows), Refusal::Full),
    }
}
