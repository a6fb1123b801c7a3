// Reads a job as a plain text from standard input and writes the job file to standard output.
// A text that is no job gets one line of words on standard error, and no file is written.
#![tactic(auto)]

use jobfile::FILE_BYTES;
use jobmake::MESSAGE_BYTES;
use std::io;

// A text that fills the buffer may go on, so it is not read.
const TEXT_BYTES: usize = 262_144;

fn main(rt: HostRuntime) -> io::Result<()> {
    let mut text = [0u8; TEXT_BYTES];
    let n = console::read_full(&mut rt.stdin(), &mut text);
    if n == TEXT_BYTES {
        return eprintln!(rt; "the text is too long: 262,143 bytes are read");
    }
    let mut file = [0u8; FILE_BYTES];
    let mut message = [0u8; MESSAGE_BYTES];
    match jobmake::make_file(&text[..n], &mut file, &mut message) {
        Ok(length) => rt.stdout().write_all(&file[..length]),
        Err(e) => rt.stderr().write_all(&message[..e.length]),
    }
}
