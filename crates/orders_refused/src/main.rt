// The program `orders` on inserts that are refused, which leave case P1 as it is.
#![tactic(auto)]

use std::io;

fn main(rt: HostRuntime) -> io::Result<()> {
    shell::serve(&rt)
}
