// The program `orders` on a line that its buffer does not hold: the lines after it are not run.
#![tactic(auto)]

use std::io;

fn main(rt: HostRuntime) -> io::Result<()> {
    shell::serve(&rt)
}
