// What the programs share: a buffer is filled from a reader, and the text of a job file goes from a reader to a writer.
#![tactic(auto)]

ghost use Rattle.std.specs.Prelude.{◌≤◌, length};
ghost use Rattle.console.specs.PrintedIn.{PrintedIn};

use jobfile::FILE_BYTES;
use report::TEXT;
use std::io;
use std::io::{Read, Write};

// Reads until the buffer is full or nothing more comes, and answers how many bytes have come. A read that fails counts as the end.
pub fn read_full<R: Read>(input: &mut R, buffer: &mut [u8]) -> usize
    ensures { result ≤ length buffer.new }
{
    let mut done = 0;
    // No `for`: each read says how far it came.
    while done < buffer.len() {
        match input.read(&mut buffer[done..]) {
            Ok(0) | Err(_) => break,
            Ok(n) => done += n,
        }
    }
    done
}

// How many bytes of the lent buffer the text takes. Every text fits.
#[tactic(auto, using(crate::proofs::PrintedIn::not_refused, crate::proofs::PrintedIn::printed_where_ok))]
fn text_length(file: &[u8], text: &mut [u8; TEXT]) -> usize
    ensures { PrintedIn file.now text.new result }
{
    jobreport::print_job(file, text).unwrap()
}

// One byte more than the largest file has is read, so that a longer input is refused by its length.
pub fn print_from<R: Read, W: Write>(input: &mut R, output: &mut W) -> io::Result<()> {
    let mut file = [0u8; FILE_BYTES + 1];
    let n = read_full(input, &mut file);
    let mut text = [0u8; TEXT];
    let k = text_length(&file[..n], &mut text);
    output.write_all(&text[..k])
}
