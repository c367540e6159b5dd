// The cache for C: seven functions, which include/speldervacht.h declares and explains.
//
// The host lends the table, the words for orders and for their reasons, a message's bytes, a list to write, and a batch's requests and
// answers, each as a pointer and a length. All else is numbers and structs of numbers. Each function answers whatever the numbers, words and
// bytes are.
#![tactic(auto)]

ghost use Rattle.std.specs.Prelude.{◌≡◌};
ghost use Rattle.cache.specs.Tables.{opened};
ghost use Rattle.numbers.specs.Meanings.{mode_of_raw};
ghost use Rattle.speldervacht.specs.Numbers.{open_in, after_open, open_numbers, unknown_refusal, after_step, step_numbers, after_explain, explain_numbers, after_batch, batch_numbers, ask_numbers, report_numbers, after_writing, write_numbers};

use batch::batch;
use explain::explain;
use judge::judge;
use numbers::raw::{
    RawAnswer, RawBatched, RawExplanation, RawFigures, RawRequest, RawSettings, RawVerdict,
    RawWritten,
};
use numbers::request::UnknownKind;
use rules::answer::Refusal;
use rules::request::Request;
use settings::{Mode, Settings};

// Opens by the mode's number, which C gives: 0 alone, 1 lead, 2 standby. An unknown mode is refused as a threshold
// of 0 is: 5, unless the rows or the table are at fault.
fn open_in(
    table: &mut [u64],
    rows: u64,
    mode: u64,
    threshold: u64,
    s: Settings,
) -> Result<u64, Refusal>
    ensures { opened result table.new ≡ open_in table.old rows (mode_of_raw mode) threshold s }
{
    match mode {
        0 => cache::open(table, rows, Mode::Alone, threshold, s),
        1 => cache::open(table, rows, Mode::Lead, threshold, s),
        2 => cache::open(table, rows, Mode::Standby, threshold, s),
        _ => cache::open(table, rows, Mode::Alone, 0, s),
    }
}

// Opens a fresh cache in the table.
#[unsafe(no_mangle)]
pub extern "C" fn speldervacht_open(
    table: &mut [u64],
    rows: u64,
    mode: u64,
    threshold: u64,
    settings: RawSettings,
) -> RawAnswer
    ensures { after_open result table.new ≡ open_numbers table.old rows mode threshold settings }
{
    open_in(table, rows, mode, threshold, settings.into()).into()
}

// A request of no known kind: 1 if the table pictures no cache, else 5.
fn unknown_refusal(table: &[u64]) -> Refusal
    ensures { result ≡ unknown_refusal table.now }
{
    if judge(table) {
        return Refusal::Mode;
    }
    Refusal::Table
}

// Does one request on the cache in the table.
#[unsafe(no_mangle)]
pub extern "C" fn speldervacht_step(
    table: &mut [u64],
    orders: &mut [u64],
    message: &[u8],
    request: RawRequest,
) -> RawAnswer
    ensures { after_step result table.new orders.new ≡ step_numbers table.old orders.old message.now request }
{
    match Request::try_from(request) {
        Ok(known) => cache::step(table, orders, message, known).into(),
        Err(UnknownKind) => RawAnswer::from(Err(unknown_refusal(table))),
    }
}

// Does one request on the cache in the table, and names the reason of each order.
#[unsafe(no_mangle)]
pub extern "C" fn speldervacht_explain(
    table: &mut [u64],
    orders: &mut [u64],
    reasons: &mut [u64],
    message: &[u8],
    request: RawRequest,
) -> RawExplanation
    ensures { after_explain result table.new orders.new reasons.new ≡ explain_numbers table.old orders.old reasons.old message.now request }
{
    match Request::try_from(request) {
        Ok(known) => {
            let explained = explain(table, orders, reasons, message, known);
            (explained.answer, explained.change).into()
        }
        Err(UnknownKind) => RawExplanation::from((Err(unknown_refusal(table)), None)),
    }
}

// Does many requests on the cache in the table, which is judged once.
#[unsafe(no_mangle)]
pub extern "C" fn speldervacht_batch(
    table: &mut [u64],
    orders: &mut [u64],
    requests: &[u64],
    answers: &mut [u64],
) -> RawBatched
    ensures { after_batch result table.new orders.new answers.new ≡ batch_numbers table.old orders.old requests.now answers.old }
{
    let batched = batch(table, orders, requests, answers);
    RawBatched {
        number: RawVerdict::from(batched.verdict).number,
        done: batched.done as u64,
        orders: batched.orders as u64,
    }
}

// Tells what speldervacht_step would answer to a request, with so many order words lent for it.
#[unsafe(no_mangle)]
pub extern "C" fn speldervacht_ask(
    table: &[u64],
    lent: usize,
    message: &[u8],
    request: RawRequest,
) -> RawVerdict
    ensures { result ≡ ask_numbers table.now lent message.now request }
{
    match Request::try_from(request) {
        Ok(known) => cache::ask(table, lent, message, known).into(),
        Err(UnknownKind) => RawVerdict::from(Err(unknown_refusal(table))),
    }
}

// Tells the figures of the cache in the table.
#[unsafe(no_mangle)]
pub extern "C" fn speldervacht_report(table: &[u64]) -> RawFigures
    ensures { result ≡ report_numbers table.now }
{
    cache::report(table).into()
}

// Writes the message of a list with its number.
#[unsafe(no_mangle)]
pub extern "C" fn speldervacht_write_message(
    bytes: &mut [u8],
    number: u64,
    list: &[u64],
) -> RawWritten
    ensures { after_writing result bytes.new ≡ write_numbers bytes.old number list.now }
{
    cache::write_message(bytes, number, list).into()
}
