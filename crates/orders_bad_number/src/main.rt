// The program `orders` on a number of more than 64 bits: the lines after it are not run.
#![tactic(auto)]

use std::io;

fn main(rt: HostRuntime) -> io::Result<()> {
    shell::serve(&rt)
}
