// What is printed. Each function fails only where a write fails.
use answers::refusal_number;
use rules::answer::Refusal;
use std::io;

// An order, whose kind is a number in the order words, which C reads too.
fn order(rt: &impl Print, kind: u64, address: u64, size: u64) -> io::Result<()> {
    let name = match kind {
        1 => "write",
        2 => "evict",
        _ => "load",
    };
    println!(rt; "{name} {address} {size}")
}

// So many orders, of three words each.
fn orders(rt: &impl Print, words: &[u64], count: u64) -> io::Result<()> {
    for order_words in words.chunks_exact(3).take(count as usize) {
        order(rt, order_words[0], order_words[1], order_words[2])?;
    }
    Ok(())
}

pub fn refusal(rt: &impl Print, r: Refusal) -> io::Result<()> {
    println!(rt; "refused {}", refusal_number(r))
}

// What a request gives: its orders, or its refusal.
pub fn answer(rt: &impl Print, words: &[u64], a: Result<u64, Refusal>) -> io::Result<()> {
    match a {
        Ok(count) => orders(rt, words, count),
        Err(r) => refusal(rt, r),
    }
}

pub fn bad_line(rt: &impl Print) -> io::Result<()> {
    println!(rt; "bad line")
}
