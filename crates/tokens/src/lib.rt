// The words of a text, each with its line, and a word read as a number: what the readers of texts share.
#![tactic(auto)]

ghost use Rattle.std.specs.Prelude.{◌≡◌, ℕ, ◌-◌, ◌<◌, ◌≤◌, length, get_or, take, drop};
ghost use Rattle.tokens.specs.Tokens.{class_of, ends, scan, comment, word, rest};
ghost use Rattle.tokens.specs.Number.{numeral_of, numeral_from};
ghost use Rattle.tokens.specs.Taking.{IsPosition, TakesWord};

// What a byte is to the scan.
#[derive(Clone, Copy, Debug, PartialEq, Eq)]
pub enum Class {
    Newline,
    Hash,
    Blank,
    Other,
}

// Why a word is no number of 32 bits.
#[derive(Clone, Copy, Debug, PartialEq, Eq)]
pub enum NumeralError {
    NotNumber,
    TooLarge,
}

// A place in a text, and its line.
#[derive(Clone, Copy, Debug, PartialEq, Eq)]
pub struct Position {
    pub at: usize,
    pub line: usize,
}

// A word, as a part of the text, with its line.
#[derive(Clone, Copy, Debug, PartialEq, Eq)]
pub struct Word {
    pub from: usize,
    pub to: usize,
    pub line: usize,
}

// No word follows: the line on which the text ends.
#[derive(Clone, Copy, Debug, PartialEq, Eq)]
pub struct End {
    pub line: usize,
}

#[tactic(auto, unfolding(crate::specs::Tokens::class_of))]
fn class_of(b: u8) -> Class
    ensures { result ≡ class_of b }
{
    match b {
        b'\n' => Class::Newline,
        b'#' => Class::Hash,
        b' ' | b'\t' | b'\r' => Class::Blank,
        _ => Class::Other,
    }
}

// The end of a comment: the next new line, or the end of the text.
pub fn line_end(text: &[u8], at: usize) -> usize
    requires { at ≤ length text.now }
    ensures { (at ≤ result) × (result ≤ length text.now) × ((l : ℕ) → scan comment l (drop at text.now) ≡ rest text.now result l) }
{
    let rest = &text[at..];
    at + rest.iter().position(|b| *b == b'\n').unwrap_or(rest.len())
}

fn ends_word(b: u8) -> bool
    ensures { result ≡ ends (class_of b) }
{
    class_of(b) != Class::Other
}

// The end of the word that begins here: the next byte that is none of a word, or the end of the text.
fn word_end(text: &[u8], at: usize) -> usize
    requires { (at < length text.now) × (class_of (get_or text.now at 0) ≡ Class.Other) }
    ensures { (at < result) × (result ≤ length text.now) × ((l : ℕ) → rest text.now at l ≡ word l (take (result - at) (drop at text.now)) (rest text.now result l)) }
{
    let rest = &text[at..];
    at + rest
        .iter()
        .position(|b| ends_word(*b))
        .unwrap_or(rest.len())
}

// Past blanks, new lines and comments.
fn skip(text: &[u8], start: Position) -> Position
    requires { IsPosition text.now start }
    ensures { (start.at ≤ result.at) × IsPosition text.now result × (rest text.now start.at start.line ≡ rest text.now result.at result.line) × (result.at < length text.now → class_of (get_or text.now result.at 0) ≡ Class.Other) }
{
    let mut here = start;
    // No `for`: a comment moves the place by more than one.
    while here.at < text.len() {
        match class_of(text[here.at]) {
            Class::Newline => {
                here.line += 1;
                here.at += 1;
            }
            Class::Blank => here.at += 1,
            Class::Hash => here.at = line_end(text, here.at + 1),
            Class::Other => return here,
        }
    }
    here
}

// What the bytes say after no digit yet. A number that is too large stays so, whatever digits follow.
// Not std's `parse`: it takes a sign, and here a number too large with a letter behind it is no number.
fn read_digits(word: &[u8]) -> Result<u32, NumeralError>
    ensures { result ≡ numeral_from 0 word.now }
{
    let mut value: u64 = 0;
    for b in word {
        if !b.is_ascii_digit() {
            return Err(NumeralError::NotNumber);
        }
        if value <= u64::from(u32::MAX) {
            value = value * 10 + u64::from(*b - b'0');
        }
    }
    u32::try_from(value).map_err(|_| NumeralError::TooLarge)
}

pub fn read_numeral(word: &[u8]) -> Result<u32, NumeralError>
    ensures { result ≡ numeral_of word.now }
{
    if word.is_empty() {
        Err(NumeralError::NotNumber)
    } else {
        read_digits(word)
    }
}

pub fn take_word(text: &[u8], position: Position) -> Result<Word, End>
    requires { IsPosition text.now position }
    ensures { TakesWord text.now position result }
{
    let Position { at: from, line } = skip(text, position);
    if from < text.len() {
        let to = word_end(text, from);
        Ok(Word { from, to, line })
    } else {
        Err(End { line })
    }
}
