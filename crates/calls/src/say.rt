// What answers are made of.
use crate::lend::{TEXT, lend};
use std::{fmt, io};

// Whether buffers are said in short.
#[derive(Clone, Copy)]
pub enum Form {
    Whole,
    Short,
}

// Numbers, with a space before each.
#[derive(Clone, Copy)]
struct Numbers<'a>(&'a [u32]);

impl fmt::Display for Numbers<'_> {
    fn fmt<W: fmt::Write>(&self, f: &mut fmt::Formatter<W>) -> fmt::Result {
        for n in self.0 {
            write!(f, " {n}")?;
        }
        Ok(())
    }
}

// The status of a call, and the numbers of its result, which are said where there is one.
#[derive(Clone, Copy)]
pub struct Answer<'a>(pub u32, pub &'a [u32]);

impl fmt::Display for Answer<'_> {
    fn fmt<W: fmt::Write>(&self, f: &mut fmt::Formatter<W>) -> fmt::Result {
        match self.0 {
            0 => write!(f, "0{}", Numbers(self.1)),
            status => write!(f, "{status}"),
        }
    }
}

// A buffer as the call left it: all of it, or its two checks and its length.
#[derive(Clone, Copy)]
pub struct Buffer<'a> {
    words: &'a [u32],
    form: Form,
}

impl Form {
    pub fn say(self, words: &[u32]) -> Buffer<'_> {
        Buffer { words, form: self }
    }
}

impl fmt::Display for Buffer<'_> {
    fn fmt<W: fmt::Write>(&self, f: &mut fmt::Formatter<W>) -> fmt::Result {
        match self.form {
            Form::Whole => write!(f, " |{}", Numbers(self.words)),
            Form::Short => {
                let sums = block::sums_of(self.words);
                let length = self.words.len();
                write!(f, " | checks {} {} length {length}", sums.a, sums.b)
            }
        }
    }
}

// The line of a call that writes to one buffer, or shows a part of one.
pub fn with_words(out: &impl Print, answer: Answer, words: &[u32], form: Form) -> io::Result<()> {
    println!(out; "{answer}{}", form.say(words))
}

// The line of a call that writes bytes. They are said as words are.
pub fn with_bytes(out: &impl Print, answer: Answer, bytes: &[u8], form: Form) -> io::Result<()> {
    let mut wide = [9u32; TEXT];
    with_words(out, answer, lend(bytes, &mut wide), form)
}
