// One request on the cache in a lent table, done as ever and explained.
ghost use Rattle.std.specs.Prelude.{◌≡◌, ◌&&◌, ◌+◌, ◌*◌, ◌≤◌, ltb};
ghost use Rattle.rules.specs.Given.{can_order};
ghost use Rattle.rules.specs.Limits.{most_rows};
ghost use Rattle.explain.specs.Explanation.{explained, explain_words};

use crate::naming::put_runs;
use cache::work_judged;
use judge::judge;
use reason_rules::Change;
use rules::answer::Refusal;
use rules::request::Request;
use table::header::row_count;

// Two fields and no Result of both: C's struct has the answer beside the change, and `explained` (specs/Explanation.antt) takes them so.
#[derive(Clone, Copy)]
pub struct Explained {
    pub answer: Result<u64, Refusal>,
    // Of the maximum.
    pub change: Option<Change>,
}

// Orders can come from insert, protect, release, flush, sync and configure.
fn can_order(request: Request) -> bool
    ensures { result ≡ can_order request }
{
    matches!(
        request,
        Request::Insert { .. }
            | Request::Protect { .. }
            | Request::Release { .. }
            | Request::ReleaseChanged { .. }
            | Request::Flush
            | Request::Sync
            | Request::Configure(_)
    )
}

// The request can give orders, and fewer reason words are lent than they may be.
fn few_reasons(rows: usize, lent: usize, request: Request) -> bool
    requires { rows ≤ most_rows }
    ensures { result ≡ (can_order request && ltb lent (2 * rows + 1)) }
{
    can_order(request) & (lent < 2 * rows + 1)
}

fn refused(refusal: Refusal) -> Explained
    ensures { (result.answer ≡ Err refusal) × (result.change ≡ None) }
{
    Explained {
        answer: Err(refusal),
        change: None,
    }
}

// Does one request as step does it. Reason i is that of order i.
pub fn explain(
    table: &mut [u64],
    orders: &mut [u64],
    reasons: &mut [u64],
    message: &[u8],
    request: Request,
) -> Explained
    ensures { explained result table.new orders.new reasons.new ≡ explain_words table.old orders.old reasons.old message.now request }
{
    if !judge(table) {
        return refused(Refusal::Table);
    }
    if few_reasons(row_count(table), reasons.len(), request) {
        return refused(Refusal::OrderWords);
    }
    let worked = work_judged(table, orders, message, request, None);
    put_runs(reasons, worked.done.runs);
    Explained {
        answer: worked.answer,
        change: worked.done.change,
    }
}
