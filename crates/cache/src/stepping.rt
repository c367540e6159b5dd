// One request on the cache in a lent table.
ghost use Rattle.std.specs.Prelude.{◌≡◌, true, [], length};
ghost use Rattle.rules.specs.Hosts.{asking};
ghost use Rattle.reasons.specs.Runs.{all_runs};
ghost use Rattle.judge.specs.Verdict.{judge_words};
ghost use Rattle.layout.specs.Picture.{cache_in};
ghost use Rattle.room.specs.Held.{HeldIs};
ghost use Rattle.cache.specs.Tables.{left, step_words};
ghost use Rattle.cache.specs.Named.{Named};

use crate::work::carry_out;
use judge::judge;
use lists::take::take;
use reasons::runs::{Done, no_orders};
use refusals::named::find_named;
use refusals::refusal_of;
use rules::answer::Refusal;
use rules::request::Request;
use table::header::row_count;

// What a request comes to: its answer, and what its work tells. The work is no Result, since `Named` says the
// runs and the change of a refused request too.
#[derive(Clone, Copy)]
pub struct Worked {
    pub answer: Result<u64, Refusal>,
    pub done: Done,
}

// A request that gave no orders and changed no maximum.
fn without_orders(answer: Result<u64, Refusal>) -> Worked
    ensures { (result.answer ≡ answer) × (all_runs result.done.runs ≡ []) × (result.done.change ≡ None) }
{
    let done = no_orders(None);
    Worked { answer, done }
}

// One request on a table that passed. Held bytes that the caller knows are not summed at a release.
pub fn work_judged(
    table: &mut [u64],
    orders: &mut [u64],
    message: &[u8],
    request: Request,
    known: Option<u64>,
) -> Worked
    requires { (judge_words table.old ≡ true) × HeldIs known (cache_in table.old) }
    ensures orders_after { left result.answer table.new orders.new ≡ step_words table.old orders.old message.now request }
    ensures named { Named (cache_in table.old) (asking request message.now (length orders.old)) result }
{
    if let Request::Take = request {
        return without_orders(take(table, message));
    }
    let rows = row_count(table);
    let found = find_named(table, rows, request);
    let verdict = refusal_of(table, rows, found, orders.len(), message, request);
    if let Err(refusal) = verdict {
        return without_orders(Err(refusal));
    }
    let done = carry_out(table, orders, found, message, request, known);
    Worked {
        answer: Ok(done.given as u64),
        done,
    }
}

// The same as step, on a table that passed.
pub fn step_judged(
    table: &mut [u64],
    orders: &mut [u64],
    message: &[u8],
    request: Request,
    known: Option<u64>,
) -> Result<u64, Refusal>
    requires { (judge_words table.old ≡ true) × HeldIs known (cache_in table.old) }
    ensures { left result table.new orders.new ≡ step_words table.old orders.old message.now request }
{
    let worked = work_judged(table, orders, message, request, known);
    worked.answer
}

// Does one request: the answer has the number of orders, which stand in the words lent for them.
pub fn step(
    table: &mut [u64],
    orders: &mut [u64],
    message: &[u8],
    request: Request,
) -> Result<u64, Refusal>
    ensures { left result table.new orders.new ≡ step_words table.old orders.old message.now request }
{
    if !judge(table) {
        return Err(Refusal::Table);
    }
    step_judged(table, orders, message, request, None)
}
