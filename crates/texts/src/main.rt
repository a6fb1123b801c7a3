// Prints, for each job file that its arguments name, the name and then what `relations` prints for the file.
#![tactic(auto)]

ghost use Rattle.std.specs.Prelude.{◌≤◌, length};

use std::fs::File;
use std::io::{Cursor, Write};
use std::{env, io};

// The system's words for an error and its number behind them take less.
const WORDS: usize = 256;

// Where the words end: before the number that stands behind them in brackets, else at the first byte that is not written, and before the spaces there.
fn words_end(text: &[u8]) -> usize
    ensures { result ≤ length text.now }
{
    let end = text.iter().position(|b| matches!(b, 0 | b'('));
    let front = &text[..end.unwrap_or(text.len())];
    front
        .iter()
        .rposition(|b| *b != b' ')
        .map_or(0, |last| last + 1)
}

fn print_named(rt: &HostRuntime, name: &str) -> io::Result<()> {
    println!(rt; "{name}")?;
    match File::open(rt, name) {
        Ok(mut file) => console::print_from(&mut file, &mut io::writer(rt)),
        Err(e) => {
            let mut words = Cursor::new([0u8; WORDS]);
            write!(words, "{e}")?;
            let text = words.into_inner();
            let end = words_end(&text);
            eprint!(rt; "{name}: ")?;
            rt.stderr().write_all(&text[..end])?;
            eprintln!(rt; "")
        }
    }
}

fn main(rt: HostRuntime) -> io::Result<()> {
    for name in env::args(&rt)?.skip(1) {
        print_named(&rt, name.as_str())?;
    }
    Ok(())
}
