// The program `orders` on a last line without a newline.
#![tactic(auto)]

use std::io;

fn main(rt: HostRuntime) -> io::Result<()> {
    shell::serve(&rt)
}
