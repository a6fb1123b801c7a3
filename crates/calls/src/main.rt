// Answers requests from standard input, a line for each (docs/FORMATS.md).
#![tactic(auto)]

mod arguments;
mod fault;
mod lend;
mod lines;
mod request_line;
mod run;
mod say;

use std::io;

// All numbers of a request: a basis and the text of a basis are the most.
const VALUES: usize = 200_000;

// The bytes of a line, with one for its new line.
const LINE_BYTES: usize = 524_288;

fn main(rt: HostRuntime) -> io::Result<()> {
    let mut text = [0u8; LINE_BYTES];
    let mut values = [9u32; VALUES];
    lines::answer_all(&rt, &mut rt.stdin(), &mut text, &mut values)
}
