// The requests that the cases make. Each prints itself and then what it gives, and fails only where a
// write fails.
use rules::report::Report;
use rules::request::{Access, Request};
use settings::{Mode, Settings};
use shell::{ask, print};
use small_setup::{Orders, Table};
use std::io;

// The words of a case's table, and those for orders.
#[derive(Drop)]
pub struct Host {
    pub table: Table,
    pub orders: Orders,
}

fn protect_request(address: u64, size: u64) -> Request {
    Request::Protect {
        access: Access::Reading,
        address,
        size,
    }
}

impl Host {
    pub fn open(
        &mut self,
        rt: &impl Print,
        rows: u64,
        mode: Mode,
        threshold: u64,
        s: Settings,
    ) -> io::Result<()> {
        let answer = cache::open(&mut self.table, rows, mode, threshold, s);
        print::answer(rt, &[], answer)
    }

    fn ask(&mut self, rt: &impl Print, request: Request) -> io::Result<()> {
        ask(rt, &mut self.table, &mut self.orders, request)
    }

    // A request that names an address.
    fn ask_at(
        &mut self,
        rt: &impl Print,
        name: &str,
        address: u64,
        request: Request,
    ) -> io::Result<()> {
        println!(rt; "{name} {address}")?;
        self.ask(rt, request)
    }

    pub fn insert(&mut self, rt: &impl Print, address: u64, size: u64) -> io::Result<()> {
        println!(rt; "insert {address} {size}")?;
        self.ask(rt, Request::Insert { address, size })
    }

    // For reading.
    pub fn protect(&mut self, rt: &impl Print, address: u64, size: u64) -> io::Result<()> {
        println!(rt; "protect {address} {size}")?;
        self.ask(rt, protect_request(address, size))
    }

    pub fn release(&mut self, rt: &impl Print, address: u64) -> io::Result<()> {
        self.ask_at(rt, "release", address, Request::Release { address })
    }

    pub fn pin(&mut self, rt: &impl Print, address: u64) -> io::Result<()> {
        self.ask_at(rt, "pin", address, Request::Pin { address })
    }

    pub fn unpin(&mut self, rt: &impl Print, address: u64) -> io::Result<()> {
        self.ask_at(rt, "unpin", address, Request::Unpin { address })
    }

    pub fn discard(&mut self, rt: &impl Print, address: u64) -> io::Result<()> {
        self.ask_at(rt, "discard", address, Request::Discard { address })
    }

    pub fn flush(&mut self, rt: &impl Print) -> io::Result<()> {
        println!(rt; "flush")?;
        self.ask(rt, Request::Flush)
    }

    // The message of a list of two addresses.
    pub fn take(
        &mut self,
        rt: &impl Print,
        number: u64,
        first: u64,
        second: u64,
    ) -> io::Result<()> {
        println!(rt; "take message {number}: {first} {second}")?;
        let mut message = [0u8; 41];
        // 41 bytes hold the message of two addresses, so it is not refused.
        let _ = cache::write_message(&mut message, number, &[first, second]);
        let answer = cache::step(&mut self.table, &mut self.orders, &message, Request::Take);
        print::answer(rt, &self.orders, answer)
    }

    // Protects and releases an entry so many times.
    pub fn use_often(
        &mut self,
        rt: &impl Print,
        address: u64,
        size: u64,
        times: u64,
    ) -> io::Result<()> {
        println!(rt; "use {address}, {times} times")?;
        for _ in 0..times {
            self.ask(rt, protect_request(address, size))?;
            self.ask(rt, Request::Release { address })?;
        }
        Ok(())
    }

    pub fn report(&self, rt: &impl Print) -> io::Result<()> {
        match cache::report(&self.table) {
            Ok(r) => figures(rt, r),
            Err(n) => print::refusal(rt, n),
        }
    }
}

fn figures(rt: &impl Print, r: Report) -> io::Result<()> {
    let due = if r.due { "due" } else { "not due" };
    println!(rt;
        "held {} dirty {} maximum {} count {} next {} {due}",
        r.held, r.dirty, r.maximum, r.count, r.next
    )
}
