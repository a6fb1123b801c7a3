// The lines of the input, each answered as soon as it has come.
ghost use Rattle.std.specs.Prelude.{◌≤◌, length, IfOk};

use crate::fault::{Fault, Stop};
use crate::request_line::answer_line;
use std::io::Read;
use std::{io, mem};

// Where answers go and numbers are kept, the number of the next line, and whether its front is lost.
#[derive(Drop)]
struct Session<'o, 'v, P> {
    out: &'o P,
    values: &'v mut [u32],
    line: usize,
    lost: bool,
}

impl<P: Print> Session<'_, '_, P> {
    // Answers the next line, of which this text has come.
    fn answer(&mut self, text: &[u8]) -> io::Result<()> {
        let line = self.line;
        self.line = line.wrapping_add(1);
        let answered = if mem::replace(&mut self.lost, false) {
            Err(Stop::from(Fault::LineTooLong))
        } else {
            answer_line(self.out, text, self.values)
        };
        match answered {
            Ok(()) => Ok(()),
            Err(Stop::NoRequest(fault)) => println!(self.out; "line {line}: {fault}"),
            Err(Stop::Output(error)) => Err(error),
        }
    }

    // Answers each line that has its end, and says where the line without one begins.
    fn answer_ended(&mut self, text: &[u8]) -> io::Result<usize>
        ensures { IfOk result (λ at. at ≤ length text.now) }
    {
        let Some(last) = text.iter().rposition(|b| *b == b'\n') else {
            return Ok(0);
        };
        for line in text[..last].split(|b| *b == b'\n') {
            self.answer(line)?;
        }
        Ok(last + 1)
    }
}

// Answers lines until nothing more comes, and then the last where it has no end. A read that fails counts as the end of the input.
pub fn answer_all<R: Read>(
    out: &impl Print,
    input: &mut R,
    text: &mut [u8],
    values: &mut [u32],
) -> io::Result<()> {
    let mut session = Session {
        out,
        values,
        line: 1,
        lost: false,
    };
    let mut kept = 0;
    // Without a bound the program would have no proof that it ends.
    for _ in 0..u64::MAX {
        let count = input.read(&mut text[kept..]).unwrap_or(0);
        if count == 0 {
            break;
        }
        let end = kept + count;
        let at = session.answer_ended(&text[..end])?;
        text.copy_within(at..end, 0);
        kept = end - at;
        if kept == text.len() {
            // It fills the text and has no end in it.
            session.lost = true;
            kept = 0;
        }
    }
    session.answer(&text[..kept])
}
