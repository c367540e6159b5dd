// The program `orders` on another word: the lines after it are not run.
#![tactic(auto)]

use std::io;

fn main(rt: HostRuntime) -> io::Result<()> {
    shell::serve(&rt)
}
