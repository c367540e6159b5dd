// The program `orders` on 4,000 lines, which it reads in pieces.
#![tactic(auto)]

use std::io;

fn main(rt: HostRuntime) -> io::Result<()> {
    shell::serve(&rt)
}
