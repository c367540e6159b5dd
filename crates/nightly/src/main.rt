// A night of the backup host: alone, the minimum clean fraction 0.3 named, all else by default. It
// goes through the world's records, some of them often, changes every third that it looks at, and
// flushes at the end. Its orders, one to a line.
#![tactic(auto)]

use entries::default_threshold;
use rules::request::{Access, Request};
use settings::{Mode, Settings};
use shell::{ask, print};
use std::io;

const ROWS: u64 = 64;

// 128 words, and 32 for each row.
const TABLE_WORDS: usize = 2176;

type Table = [u64; TABLE_WORDS];

// 3 for each of 2 x 64 + 1 orders.
const ORDER_WORDS: usize = 387;

type Orders = [u64; ORDER_WORDS];

// How many times a record is looked at in a night.
const VISITS: u64 = 400;

// How many records are looked at often.
const OFTEN: u64 = 31;

// A record read, or changed.
fn visit(
    rt: &impl Print,
    table: &mut Table,
    orders: &mut Orders,
    address: u64,
    size: u64,
    changed: bool,
) -> io::Result<()> {
    ask(
        rt,
        table,
        orders,
        Request::Protect {
            access: Access::Writing,
            address,
            size,
        },
    )?;
    if changed {
        return ask(rt, table, orders, Request::ReleaseChanged { address, size });
    }
    ask(rt, table, orders, Request::Release { address })
}

// The record of a visit; every eighth visit is to one of those looked at seldom.
fn record(i: u64) -> u64 {
    if i % 8 == 7 {
        return 40 + i % 64;
    }
    i % VISITS * 7919 % 104729 % OFTEN
}

fn night(rt: &impl Print, table: &mut Table, orders: &mut Orders) -> io::Result<()> {
    for i in 0..VISITS {
        let address = record(i);
        let size = 20000 + address % 10000 * 7919 % 90001;
        visit(rt, table, orders, address, size, i % 3 == 0)?;
    }
    ask(rt, table, orders, Request::Flush)
}

fn main(rt: HostRuntime) -> io::Result<()> {
    let mut table = [0u64; TABLE_WORDS];
    let mut orders = [0u64; ORDER_WORDS];
    let s = Settings {
        clean: 0.3,
        ..Settings::defaults(Mode::Alone)
    };
    let answer = cache::open(&mut table, ROWS, Mode::Alone, default_threshold(), s);
    print::answer(&rt, &[], answer)?;
    night(&rt, &mut table, &mut orders)
}
