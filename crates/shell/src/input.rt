// Reading the input and running its lines.
ghost use Rattle.std.specs.Prelude.{◌≤◌, ◌≡◌, length, IfOk, OnErr};
ghost use Rattle.std.specs.Io.{ReadsAtMost};
ghost use Rattle.lines.specs.Lines.{line_of};
ghost use Rattle.shell.specs.Lines.{ran, ran_line};
ghost use Rattle.shell.specs.Rest.{Within};

use crate::{ask, print};
use lines::Insert;
use rules::request::Request;
use small_setup::{Orders, Table};
use std::io;
use std::io::Read;

// Runs a line, and answers whether the run goes on. The line is done also where a write fails.
fn run_line(rt: &impl Print, table: &mut Table, orders: &mut Orders, s: &[u8]) -> io::Result<bool>
    ensures ok { IfOk result (λ on. ran on table.new orders.new ≡ ran_line table.old orders.old (line_of s.now)) }
    ensures err_table { OnErr result (table.new ≡ (ran_line table.old orders.old (line_of s.now)).table) }
    ensures err_orders { OnErr result (orders.new ≡ (ran_line table.old orders.old (line_of s.now)).orders) }
{
    let Some(Insert { address, size }) = lines::read_line(s) else {
        print::bad_line(rt)?;
        return Ok(false);
    };
    ask(rt, table, orders, Request::Insert { address, size })?;
    Ok(true)
}

// Runs the lines that end within a text, and answers where the unfinished one starts; nothing where the run is over. A line's end
// says where the next starts, so this is no range.
#[tactic(auto, using(lines::proofs::Laws::line_within))]
fn run_lines(
    rt: &impl Print,
    table: &mut Table,
    orders: &mut Orders,
    text: &[u8],
) -> io::Result<Option<usize>>
    ensures { IfOk result (λ rest. Within rest (length text.now)) }
{
    let mut at: usize = 0;
    while at < text.len() {
        let end = lines::line_end(text, at);
        if end == text.len() {
            return Ok(Some(at));
        }
        if !run_line(rt, table, orders, &text[at..end])? {
            return Ok(None);
        }
        at = end + 1;
    }
    Ok(Some(at))
}

// Keeps the unfinished line, which lies between two places, at the front, and answers how long it is.
// One that fills the buffer is bad.
fn keep(rt: &impl Print, buf: &mut [u8], from: usize, to: usize) -> io::Result<Option<usize>>
    requires from_le_to { from ≤ to }
    requires to_in_bounds { to ≤ length buf.old }
    ensures ok { IfOk result (λ rest. Within rest (length buf.new)) }
    ensures err { OnErr result (buf.new ≡ buf.old) }
{
    if to - from == buf.len() {
        print::bad_line(rt)?;
        return Ok(None);
    }
    buf.copy_within(from..to, 0);
    Ok(Some(to - from))
}

// Reads once behind the bytes that are kept, and answers how many there are now.
fn read_behind(reader: &mut impl Read, buf: &mut [u8], kept: usize) -> io::Result<usize>
    requires { kept ≤ length buf.old }
    ensures lower_bound { IfOk result (λ n. kept ≤ n) }
    ensures prefix_len { ReadsAtMost result buf.new }
{
    let got = reader.read(&mut buf[kept..])?;
    Ok(kept + got)
}

// Reads once, and runs the lines that are whole then. At the input's end the last line is whole,
// with or without a newline.
fn run_piece(
    rt: &impl Print,
    reader: &mut impl Read,
    table: &mut Table,
    orders: &mut Orders,
    buf: &mut [u8],
    kept: usize,
) -> io::Result<Option<usize>>
    requires { kept ≤ length buf.old }
    ensures { IfOk result (λ rest. Within rest (length buf.new)) }
{
    let n = read_behind(reader, buf, kept)?;
    if n == kept {
        if 0 < n {
            run_line(rt, table, orders, &buf[..n])?;
        }
        return Ok(None);
    }
    let Some(at) = run_lines(rt, table, orders, &buf[..n])? else {
        return Ok(None);
    };
    keep(rt, buf, at, n)
}

// Runs the whole input. Nothing says that it ends, so the turns are counted up to a number that no
// run uses up.
pub fn run(
    rt: &(impl Input + Print),
    table: &mut Table,
    orders: &mut Orders,
    buf: &mut [u8],
) -> io::Result<()> {
    let mut reader = rt.reader();
    let mut kept: usize = 0;
    for _turn in 0..u64::MAX {
        let Some(n) = run_piece(rt, &mut reader, table, orders, buf, kept)? else {
            return Ok(());
        };
        kept = n;
    }
    Ok(())
}
