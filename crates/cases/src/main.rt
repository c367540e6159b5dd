// Document 01's cases, each on a table that is opened anew: the requests, what they give, and the
// report.
#![tactic(auto)]

mod requests;

use entries::default_threshold;
use requests::Host;
use settings::{Decrease, Increase, Mode};
use small_setup::{ORDER_WORDS, ROWS, TABLE_WORDS, small, small_with};
use std::io;

// P1's inserts, the last with this size.
fn three_inserts(rt: &impl Print, host: &mut Host, size: u64) -> io::Result<()> {
    host.open(rt, ROWS, Mode::Alone, default_threshold(), small())?;
    host.insert(rt, 100, 3000)?;
    host.insert(rt, 200, 1000)?;
    host.insert(rt, 300, size)?;
    host.report(rt)
}

fn p1(rt: &impl Print, host: &mut Host) -> io::Result<()> {
    println!(rt; "P1")?;
    three_inserts(rt, host, 500)
}

fn p2(rt: &impl Print, host: &mut Host) -> io::Result<()> {
    println!(rt; "P2 with 96")?;
    three_inserts(rt, host, 96)?;
    println!(rt; "P2 with 97")?;
    three_inserts(rt, host, 97)
}

fn p3(rt: &impl Print, host: &mut Host) -> io::Result<()> {
    println!(rt; "P3")?;
    host.open(rt, 1, Mode::Alone, default_threshold(), small())?;
    host.insert(rt, 100, 50)?;
    host.protect(rt, 100, 50)?;
    host.pin(rt, 100)?;
    host.release(rt, 100)?;
    host.insert(rt, 200, 60)?;
    host.unpin(rt, 100)?;
    host.insert(rt, 200, 60)?;
    host.report(rt)
}

fn p4(rt: &impl Print, host: &mut Host) -> io::Result<()> {
    println!(rt; "P4")?;
    host.open(rt, ROWS, Mode::Alone, default_threshold(), small())?;
    host.protect(rt, 100, 10)?;
    host.protect(rt, 100, 10)?;
    host.release(rt, 100)?;
    host.discard(rt, 100)?;
    host.report(rt)
}

// 89 hits of 100, with held bytes far below the maximum when the epoch ends: 400 came and went ten
// times, and each time making room found it above the maximum.
fn p6(rt: &impl Print, host: &mut Host) -> io::Result<()> {
    println!(rt; "P6")?;
    let rising = Increase::Threshold {
        lower: 0.9,
        multiplier: 2.0,
    };
    host.open(
        rt,
        ROWS,
        Mode::Alone,
        default_threshold(),
        small_with(rising, Decrease::Off),
    )?;
    host.use_often(rt, 400, 5000, 10)?;
    host.use_often(rt, 300, 500, 89)?;
    host.report(rt)?;
    host.use_often(rt, 300, 500, 1)?;
    host.report(rt)
}

fn p9(rt: &impl Print, host: &mut Host) -> io::Result<()> {
    println!(rt; "P9")?;
    host.open(rt, ROWS, Mode::Lead, 1000, small())?;
    host.insert(rt, 100, 600)?;
    host.insert(rt, 200, 400)?;
    host.report(rt)?;
    host.insert(rt, 300, 200)?;
    host.report(rt)
}

fn p10(rt: &impl Print, host: &mut Host) -> io::Result<()> {
    println!(rt; "P10")?;
    host.open(rt, ROWS, Mode::Standby, default_threshold(), small())?;
    host.insert(rt, 100, 600)?;
    host.take(rt, 1, 100, 100)?;
    host.insert(rt, u64::MAX, 0)?;
    host.report(rt)
}

fn p11(rt: &impl Print, host: &mut Host) -> io::Result<()> {
    println!(rt; "P11")?;
    host.open(rt, 2, Mode::Lead, default_threshold(), small())?;
    host.insert(rt, 100, 100)?;
    host.insert(rt, 200, 100)?;
    host.insert(rt, 300, 100)?;
    host.flush(rt)?;
    host.insert(rt, 300, 100)?;
    host.report(rt)
}

// A list is taken by its message, once.
fn messages(rt: &impl Print, host: &mut Host) -> io::Result<()> {
    println!(rt; "messages")?;
    host.open(rt, ROWS, Mode::Standby, default_threshold(), small())?;
    host.insert(rt, 100, 600)?;
    host.insert(rt, 200, 300)?;
    host.take(rt, 2, 100, 200)?;
    host.take(rt, 1, 100, 200)?;
    host.report(rt)?;
    host.take(rt, 1, 100, 200)
}

// Epochs of 100 accesses. The first uses 100 once; all other accesses are to 200, which is held when
// an epoch ends. The reserve shows in the maximum: held bytes / 0.75.
fn case_12(rt: &impl Print, host: &mut Host) -> io::Result<()> {
    println!(rt; "12")?;
    let ageing = Decrease::AgeOut {
        epochs: 1,
        reserve: 0.25,
    };
    host.open(
        rt,
        ROWS,
        Mode::Alone,
        default_threshold(),
        small_with(Increase::Off, ageing),
    )?;
    host.insert(rt, 100, 1500)?;
    host.use_often(rt, 100, 1500, 1)?;
    host.use_often(rt, 200, 900, 98)?;
    host.report(rt)?;
    host.use_often(rt, 200, 900, 1)?;
    host.report(rt)?;
    host.use_often(rt, 200, 900, 99)?;
    host.report(rt)?;
    host.use_often(rt, 200, 900, 1)?;
    host.report(rt)
}

fn main(rt: HostRuntime) -> io::Result<()> {
    let mut host = Host {
        table: [0; TABLE_WORDS],
        orders: [0; ORDER_WORDS],
    };
    p1(&rt, &mut host)?;
    p2(&rt, &mut host)?;
    p3(&rt, &mut host)?;
    p4(&rt, &mut host)?;
    p6(&rt, &mut host)?;
    p9(&rt, &mut host)?;
    p10(&rt, &mut host)?;
    messages(&rt, &mut host)?;
    p11(&rt, &mut host)?;
    case_12(&rt, &mut host)
}
