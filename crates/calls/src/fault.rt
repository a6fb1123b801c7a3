// Why a line is answered with words, or the answering stops.
use request::Slip;
use std::{fmt, io};

// What is wrong with a line that is no request.
#[derive(Clone, Copy)]
pub enum Fault {
    LineTooLong,
    NoCall,
    Words(Slip),
    OtherArguments,
    NoByte,
    OtherLength,
}

impl fmt::Display for Fault {
    fn fmt<W: fmt::Write>(&self, f: &mut fmt::Formatter<W>) -> fmt::Result {
        f.write_str(match self {
            Fault::LineTooLong => "the line is too long",
            Fault::NoCall => "there is no call of this name",
            Fault::Words(Slip::NotNumber) => "a word is no list of numbers",
            Fault::Words(Slip::TooLarge) => "a number does not fit 32 bits",
            Fault::Words(Slip::NoModulus) => "numbers are drawn modulo a number above 0",
            Fault::Words(Slip::TooLong) => "there are more numbers than the program has room for",
            Fault::Words(Slip::TooMany) => "there are more words than a call takes",
            Fault::OtherArguments => "the call takes other numbers and slices",
            Fault::NoByte => "a byte is at most 255",
            Fault::OtherLength => "a slice has another length",
        })
    }
}

impl From<Slip> for Fault {
    fn from(slip: Slip) -> Fault {
        Fault::Words(slip)
    }
}

// What keeps a line from its call's answer.
pub enum Stop {
    NoRequest(Fault),
    Output(io::Error),
}

impl From<Fault> for Stop {
    fn from(fault: Fault) -> Stop {
        Stop::NoRequest(fault)
    }
}

impl From<io::Error> for Stop {
    fn from(error: io::Error) -> Stop {
        Stop::Output(error)
    }
}
