// One line: the call that it names, and the call's answer.
use crate::arguments::Request;
use crate::fault::{Fault, Stop};
use crate::run;
use crate::say::Form;
use tokens::{Position, Word};

// The first word of a text, and what stands behind it.
#[tactic(auto, unfolding(tokens::specs::Taking::TakesWord))]
fn split_word(text: &[u8]) -> Option<(&[u8], &[u8])> {
    let Word { from, to, line: _ } = tokens::take_word(text, Position { at: 0, line: 1 }).ok()?;
    Some((&text[from..to], &text[to..]))
}

// A line without a word gets no answer; `checks` before the call asks for buffers in short.
pub fn answer_line(out: &impl Print, text: &[u8], values: &mut [u32]) -> Result<(), Stop> {
    let Some((word, text)) = split_word(text) else {
        return Ok(());
    };
    if word != b"checks".as_slice() {
        let form = Form::Whole;
        return run::answer(out, word, Request { text, form }, values);
    }
    let (name, text) = split_word(text).ok_or(Fault::NoCall)?;
    let form = Form::Short;
    run::answer(out, name, Request { text, form }, values)
}
