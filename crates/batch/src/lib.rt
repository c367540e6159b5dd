// Many requests on one table, which is judged once, and whose held bytes are summed again only after a request that may change them.
//
// A request is three words: kind, address and size, numbered as in include/speldervacht.h. Its answer is two: the number, and how many
// orders it gave. Orders stand one request's after the other's. Take and configure, which need more, are not done in a batch.
#![tactic(auto)]

ghost use Rattle.std.specs.Prelude.{true, ◌≡◌, ◌≤◌, eqb, length, get_or};
ghost use Rattle.cache.specs.Tables.{left};
ghost use Rattle.judge.specs.Verdict.{judge_words};
ghost use Rattle.layout.specs.Picture.{cache_in};
ghost use Rattle.numbers.specs.Meanings.{asked, plain_of};
ghost use Rattle.rules.specs.Answers.{answer_number};
ghost use Rattle.room.specs.Held.{HeldIs};
ghost use Rattle.batch.specs.Known.{kept_for};
ghost use Rattle.batch.specs.Batch.{after, done_with, one_by_one, batch_words};

use cache::step_judged;
use judge::judge;
use numbers::raw::RawAnswer;
use numbers::request::plain_request;
use room::held_now;
use rules::answer::Refusal;
use table::header::row_count;

// The kinds of a protect, for reading, and of a release; that of a protect for writing is between them. They are numbers here, since
// `kept_for` of specs/Known.antt, which `known_after` promises, is defined over the kind's number.
const PROTECT: u64 = 2;

const RELEASE: u64 = 4;

// What a batch answers.
#[derive(Clone, Copy)]
pub struct Batched {
    // Accepted if every request was answered; else why the first that was not was not begun.
    pub verdict: Result<(), Refusal>,
    // How many requests were answered.
    pub done: usize,
    // How many orders they gave.
    pub orders: usize,
}

// What is known of the held bytes before a request: a release needs them.
fn known_before(table: &[u64], kind: u64, held: Option<u64>) -> Option<u64>
    requires { (judge_words table.now ≡ true) × HeldIs held (cache_in table.now) }
    ensures { HeldIs result (cache_in table.now) }
{
    if kind != RELEASE {
        return held;
    }
    Some(held_now(table, row_count(table), held))
}

// And after it: a protect or a release that gave no orders leaves them.
fn known_after(kind: u64, orders: u64, held: Option<u64>) -> Option<u64>
    ensures { result ≡ kept_for kind orders held }
{
    if (orders == 0) & ((PROTECT <= kind) & (kind <= RELEASE)) {
        return held;
    }
    None
}

// The request in the first three words, on a table that passed.
fn one(
    table: &mut [u64],
    orders: &mut [u64],
    words: &[u64],
    known: Option<u64>,
) -> Result<u64, Refusal>
    requires { (judge_words table.old ≡ true) × (3 ≤ length words.now) × HeldIs known (cache_in table.old) }
    ensures { left result table.new orders.new ≡ done_with (asked (plain_of (get_or words.now 0 0) (get_or words.now 1 0) (get_or words.now 2 0))) table.old orders.old }
{
    match plain_request(words[0], words[1], words[2]) {
        Some(request) => step_judged(table, orders, &[], request, known),
        None => Err(Refusal::Mode),
    }
}

// Whether too few order words were left for the request.
fn lacks_words(answer: Result<u64, Refusal>) -> bool
    ensures { result ≡ eqb (answer_number answer) 2 }
{
    matches!(answer, Err(Refusal::OrderWords))
}

// One request after another, on a table that passed. A loop and no range: how many were done and the verdict are answered after it, and a
// `for` gives no value.
fn one_by_one(
    table: &mut [u64],
    orders: &mut [u64],
    requests: &[u64],
    answers: &mut [u64],
) -> Batched
    requires { judge_words table.old ≡ true }
    ensures { after result table.new orders.new answers.new ≡ one_by_one requests.now table.old orders.old answers.old }
{
    let mut done: usize = 0;
    let mut given: usize = 0;
    let mut held = None;
    let verdict = loop {
        let from = done * 3;
        if requests.len() < from + 3 {
            break Ok(());
        }
        let to = done * 2;
        if answers.len() < to + 2 {
            break Err(Refusal::OrderWords);
        }
        let free = given * 3;
        let kind = requests[from];
        let known = known_before(table, kind, held);
        let answer = one(table, &mut orders[free..], &requests[from..], known);
        if lacks_words(answer) {
            break Err(Refusal::OrderWords);
        }
        let told = RawAnswer::from(answer);
        answers[to] = told.number;
        answers[to + 1] = told.orders;
        held = known_after(kind, told.orders, known);
        given += told.orders as usize;
        done += 1;
    };
    Batched {
        verdict,
        done,
        orders: given,
    }
}

// Does the requests in turn, each with the order words that are left. It stops before the first for which too few words are left, for
// orders or for its answer.
pub fn batch(
    table: &mut [u64],
    orders: &mut [u64],
    requests: &[u64],
    answers: &mut [u64],
) -> Batched
    ensures { after result table.new orders.new answers.new ≡ batch_words table.old orders.old requests.now answers.old }
{
    if !judge(table) {
        return Batched {
            verdict: Err(Refusal::Table),
            done: 0,
            orders: 0,
        };
    }
    one_by_one(table, orders, requests, answers)
}
