// Reads a job file from standard input and prints its basis, or `refused` and a number.
#![tactic(auto)]

use std::io;

fn main(rt: HostRuntime) -> io::Result<()> {
    console::print_from(&mut rt.stdin(), &mut rt.stdout())
}
