// The tests of the requests on an entry that is here, in the order of judging; a discard may name one that is not.
#![tactic(auto, unfolding(rules::specs::Refusals::tests, rules::specs::Refusals::first_of))]

ghost use Rattle.std.specs.Prelude.{◌≡◌, List, ℕ};
ghost use Rattle.rules.specs.declared.request.Request.TheVariants.{Release, ReleaseChanged, Pin, Unpin, Resize, Discard};
ghost use Rattle.rules.specs.Refusals.{tests};
ghost use Rattle.layout.specs.Picture.{cache_in};
ghost use Rattle.table.specs.Asked.{GoodRows};
ghost use Rattle.table.specs.Told.{found_in};
ghost use Rattle.verdicts.specs.Tells.{Tells};

use conditions::found::entry_found;
use entries::{bad_address, bad_size, is_held, is_read, is_written, too_few_words};
use rules::answer::Refusal;
use table::lookup::Found;
use verdicts::refuse_if;

pub fn pin(table: &[u64], rows: usize, found: Option<Found>, address: u64) -> Result<(), Refusal>
    requires { GoodRows table.now rows × (found ≡ found_in (cache_in table.now).rows address) }
    ensures { (list : List ℕ) (lent : ℕ) → Tells result (tests (cache_in table.now) lent list (Pin address)) }
{
    refuse_if(bad_address(address), Refusal::Address)?;
    let e = entry_found(table, rows, found, address).ok_or(Refusal::Absent)?;
    refuse_if(!is_held(e.hold), Refusal::Unheld)?;
    refuse_if(e.pinned, Refusal::Pinned)
}

pub fn release(
    table: &[u64],
    rows: usize,
    found: Option<Found>,
    lent: usize,
    address: u64,
) -> Result<(), Refusal>
    requires { GoodRows table.now rows × (found ≡ found_in (cache_in table.now).rows address) }
    ensures { (list : List ℕ) → Tells result (tests (cache_in table.now) lent list (Release address)) }
{
    refuse_if(too_few_words(rows, lent), Refusal::OrderWords)?;
    refuse_if(bad_address(address), Refusal::Address)?;
    let e = entry_found(table, rows, found, address).ok_or(Refusal::Absent)?;
    refuse_if(!is_held(e.hold), Refusal::Unheld)
}

pub fn release_changed(
    table: &[u64],
    rows: usize,
    found: Option<Found>,
    lent: usize,
    address: u64,
    size: u64,
) -> Result<(), Refusal>
    requires { GoodRows table.now rows × (found ≡ found_in (cache_in table.now).rows address) }
    ensures { (list : List ℕ) → Tells result (tests (cache_in table.now) lent list (ReleaseChanged address size)) }
{
    refuse_if(too_few_words(rows, lent), Refusal::OrderWords)?;
    refuse_if(bad_address(address), Refusal::Address)?;
    refuse_if(bad_size(size), Refusal::Size)?;
    let e = entry_found(table, rows, found, address).ok_or(Refusal::Absent)?;
    refuse_if(is_read(e.hold), Refusal::Held)?;
    refuse_if(!is_held(e.hold), Refusal::Unheld)
}

pub fn unpin(table: &[u64], rows: usize, found: Option<Found>, address: u64) -> Result<(), Refusal>
    requires { GoodRows table.now rows × (found ≡ found_in (cache_in table.now).rows address) }
    ensures { (list : List ℕ) (lent : ℕ) → Tells result (tests (cache_in table.now) lent list (Unpin address)) }
{
    refuse_if(bad_address(address), Refusal::Address)?;
    let e = entry_found(table, rows, found, address).ok_or(Refusal::Absent)?;
    refuse_if(!e.pinned, Refusal::Pinned)
}

pub fn resize(
    table: &[u64],
    rows: usize,
    found: Option<Found>,
    address: u64,
    size: u64,
) -> Result<(), Refusal>
    requires { GoodRows table.now rows × (found ≡ found_in (cache_in table.now).rows address) }
    ensures { (list : List ℕ) (lent : ℕ) → Tells result (tests (cache_in table.now) lent list (Resize address size)) }
{
    refuse_if(bad_address(address), Refusal::Address)?;
    refuse_if(bad_size(size), Refusal::Size)?;
    let e = entry_found(table, rows, found, address).ok_or(Refusal::Absent)?;
    refuse_if(is_read(e.hold), Refusal::Held)?;
    refuse_if(!e.pinned && !is_written(e.hold), Refusal::Unheld)
}

pub fn discard(
    table: &[u64],
    rows: usize,
    found: Option<Found>,
    address: u64,
) -> Result<(), Refusal>
    requires { GoodRows table.now rows × (found ≡ found_in (cache_in table.now).rows address) }
    ensures { (list : List ℕ) (lent : ℕ) → Tells result (tests (cache_in table.now) lent list (Discard address)) }
{
    refuse_if(bad_address(address), Refusal::Address)?;
    let Some(e) = entry_found(table, rows, found, address) else {
        return Ok(());
    };
    refuse_if(is_held(e.hold), Refusal::Held)?;
    refuse_if(e.pinned, Refusal::Pinned)
}
