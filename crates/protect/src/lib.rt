// Protect, where it is not refused: a hit takes the hold, a miss loads the entry; then the access is counted.
#![tactic(auto)]

ghost use Rattle.std.specs.Prelude.{◌≡◌, true, false, [], ◌∷◌, ◌++◌, ◌≤◌, ◌+◌, ◌*◌, length};
ghost use Rattle.rules.specs.declared.request.Request.TheVariants.{Protect};
ghost use Rattle.rules.specs.Allowed.{Allowed};
ghost use Rattle.rules.specs.Cache.{start};
ghost use Rattle.rules.specs.Entries.{forbids};
ghost use Rattle.rules.specs.Hosts.{asking};
ghost use Rattle.rules.specs.Refusals.{bad_address, bad_size, entry_test, no_row, too_few_words};
ghost use Rattle.rules.specs.Requests.{effect, hit, loaded, missed};
ghost use Rattle.rules.specs.Rows.{get, has_free};
ghost use Rattle.reason_rules.specs.declared.Reason.TheVariants as reason;
ghost use Rattle.reasons.specs.Changes.{change_of, first_of};
ghost use Rattle.reasons.specs.Explains.{Explains};
ghost use Rattle.reasons.specs.Runs.{room_runs, all_runs};
ghost use Rattle.epoch.specs.Counts.{aged_runs};
ghost use Rattle.layout.specs.Picture.{cache_in, rest_in};
ghost use Rattle.refusals.specs.Unrefused.{Unrefused};
ghost use Rattle.table.specs.Told.{found_in};
ghost use Rattle.room.specs.Did.{Did};
ghost use Rattle.table.specs.Asked.{GoodRows, RowOf};
ghost use Rattle.protect.specs.Told.{hit_reasons, hit_changes, miss_reasons, miss_changes};

use admission::{Admitted, admit};
use entries::{joined, new_entry, protected_for};
use epoch::{Counted, count_access};
use layout::order::order_put;
use reasons::change::first_of;
use reasons::runs::{Done, Runs, no_runs};
use rules::entry::Hold;
use rules::order::{Kind, Order};
use rules::request::Access;
use table::changes::add_entry;
use table::header::row_count;
use table::lookup::{Found, entry_of};
use table::touch::touch_entry;

// The load order, and the entry, clean and held.
fn load(
    table: &mut [u64],
    orders: &mut [u64],
    rows: usize,
    access: Access,
    address: u64,
    size: u64,
    before: usize,
) -> usize
    requires { GoodRows table.old rows × (has_free (cache_in table.old).rows ≡ true) × (get (cache_in table.old).rows address ≡ None) × (bad_address address ≡ false) × (bad_size size ≡ false) × (before * 3 + 3 ≤ length orders.old) }
    ensures { Did (loaded access address size (start (cache_in table.old))) (rest_in table.old) table.new before orders.old orders.new result }
{
    let order = Order {
        kind: Kind::Load,
        address,
        size,
    };
    order_put(orders, before, order);
    let hold = joined(access, Hold::Unheld);
    add_entry(table, rows, new_entry(address, size, false, hold));
    before + 1
}

// Room, a load, and the access counted.
fn done_by_miss(admitted: Admitted, counted: Counted) -> Done
    ensures { (result.given ≡ counted.given) × (all_runs result.runs ≡ room_runs admitted.runs ++ (reason.Load ∷ aged_runs counted)) × (result.change ≡ first_of admitted.change counted.change) }
{
    Done {
        given: counted.given,
        runs: Runs {
            room: admitted.runs,
            load: 1,
            aged: counted.aged,
            again: counted.again,
        },
        change: first_of(admitted.change, counted.change),
    }
}

// The access counted, and no more.
fn done_by_hit(counted: Counted) -> Done
    ensures { (result.given ≡ counted.given) × (all_runs result.runs ≡ aged_runs counted) × (result.change ≡ counted.change) }
{
    Done {
        given: counted.given,
        runs: Runs {
            room: no_runs(),
            load: 0,
            aged: counted.aged,
            again: counted.again,
        },
        change: counted.change,
    }
}

// An address that is not in the cache.
fn miss(
    table: &mut [u64],
    orders: &mut [u64],
    rows: usize,
    access: Access,
    address: u64,
    size: u64,
) -> Done
    requires { GoodRows table.old rows × Allowed (cache_in table.old) × (get (cache_in table.old).rows address ≡ None) × (too_few_words (cache_in table.old) (length orders.old) ≡ false) × (bad_address address ≡ false) × (bad_size size ≡ false) × (no_row (cache_in table.old) ≡ false) }
    ensures did { Did (missed access address size (cache_in table.old)) (rest_in table.old) table.new 0 orders.old orders.new result.given }
    ensures named { (all_runs result.runs ≡ miss_reasons access address size (cache_in table.old)) × (result.change ≡ change_of (miss_changes access address size (cache_in table.old))) }
{
    let admitted = admit(table, orders, rows, size);
    let loaded = load(table, orders, rows, access, address, size, admitted.given);
    let counted = count_access(table, orders, rows, false, loaded);
    done_by_miss(admitted, counted)
}

// The entry in a row.
fn hit_row(
    table: &mut [u64],
    orders: &mut [u64],
    rows: usize,
    row: usize,
    access: Access,
    address: u64,
) -> Done
    requires { GoodRows table.old rows × Allowed (cache_in table.old) × RowOf (cache_in table.old).rows address row × (too_few_words (cache_in table.old) (length orders.old) ≡ false) × (entry_test (cache_in table.old) address (λ e. forbids e.hold access) ≡ false) }
    ensures did { Did (hit access address (cache_in table.old)) (rest_in table.old) table.new 0 orders.old orders.new result.given }
    ensures named { (all_runs result.runs ≡ hit_reasons access address (cache_in table.old)) × (result.change ≡ change_of (hit_changes access address (cache_in table.old))) }
{
    let e = entry_of(table, rows, row, address);
    touch_entry(table, rows, row, protected_for(access, e));
    let counted = count_access(table, orders, rows, true, 0);
    done_by_hit(counted)
}

pub fn protect(
    table: &mut [u64],
    orders: &mut [u64],
    found: Option<Found>,
    access: Access,
    address: u64,
    size: u64,
) -> Done
    requires { Unrefused table.old (asking (Protect access address size) [] (length orders.old)) × (found ≡ found_in (cache_in table.old).rows address) }
    ensures did { Did (effect (cache_in table.old) [] (Protect access address size)) (rest_in table.old) table.new 0 orders.old orders.new result.given }
    ensures explains { Explains (cache_in table.old) (Protect access address size) result }
{
    let rows = row_count(table);
    match found {
        None => miss(table, orders, rows, access, address, size),
        Some(at) => hit_row(table, orders, rows, at.row, access, address),
    }
}
