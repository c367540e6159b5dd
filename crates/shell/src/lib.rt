// The program `orders`: reads `insert ADDRESS SIZE` lines from standard input, and prints what a
// cache in the small setup orders for each.
//
// The input is read in pieces. The lines that are whole are run, the unfinished one is moved to the
// buffer's front, and the next piece goes behind it. A line that fills the buffer is a bad line. A
// read or a write that fails ends the run: its error is answered, and no other is.
#![tactic(auto)]

ghost use Rattle.std.specs.Prelude.{◌≡◌, []};
ghost use Rattle.cache.specs.Tables.{step_words};

mod input;
pub mod print;

use entries::default_threshold;
use rules::request::Request;
use settings::Mode;
use small_setup::{ORDER_WORDS, ROWS, TABLE_WORDS, small};
use std::io;

// How many bytes of input are held.
const BUFFER_BYTES: usize = 65536;

// Does a request that has no message, and prints what it gives. It is done also where a write fails.
pub fn ask(
    rt: &impl Print,
    table: &mut [u64],
    orders: &mut [u64],
    request: Request,
) -> io::Result<()>
    ensures table_after { table.new ≡ (step_words table.old orders.old [] request).table }
    ensures orders_after { orders.new ≡ (step_words table.old orders.old [] request).orders }
{
    let answer = cache::step(table, orders, &[], request);
    print::answer(rt, orders, answer)
}

// Opens the small setup, and runs the input.
pub fn serve(rt: &(impl Input + Print)) -> io::Result<()> {
    let mut table = [0u64; TABLE_WORDS];
    let mut orders = [0u64; ORDER_WORDS];
    let mut bytes = [0u8; BUFFER_BYTES];
    let answer = cache::open(&mut table, ROWS, Mode::Alone, default_threshold(), small());
    match answer {
        Ok(_) => input::run(rt, &mut table, &mut orders, &mut bytes),
        Err(r) => print::refusal(rt, r),
    }
}
