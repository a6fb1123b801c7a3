// A request: a line with the name of a call and its arguments, each a list of numbers (docs/FORMATS.md). What reads it is here.
#![tactic(auto)]

ghost use Rattle.std.specs.Prelude.{◌≡◌, true, ◌↔◌, ◌<◌, ◌==◌, Ok, length, get_or, position};
ghost use Rattle.words.specs.Lent.{over};
ghost use Rattle.tokens.specs.Number.{numeral_of};
ghost use Rattle.request.specs.Drawn.{start, next, drawn, prime47};
ghost use Rattle.request.specs.Piece.{slip_of, repeated_of, piece_of};
ghost use Rattle.request.specs.Listed.{piece_written, list_of};
ghost use Rattle.request.specs.Arguments.{arguments_of};
ghost use Rattle.request.specs.Argument.{start_of, argument_of};
ghost use Rattle.request.specs.Shape.{Shape};

use tokens::{NumeralError, Position};

// What is wrong with a word that is no list of numbers, or with the words of a line.
#[derive(Clone, Copy, Debug, PartialEq, Eq)]
pub enum Slip {
    NotNumber,
    TooLarge,
    NoModulus,
    TooLong,
    TooMany,
}

impl From<NumeralError> for Slip {
    ghost from_gives = { λ e slip. slip ≡ slip_of e };

    fn from(e: NumeralError) -> Slip {
        match e {
            NumeralError::NotNumber => Slip::NotNumber,
            NumeralError::TooLarge => Slip::TooLarge,
        }
    }
}

// A number that stands some times, or numbers that are drawn.
#[derive(Clone, Copy, Debug, PartialEq, Eq)]
pub enum Piece {
    Same { value: u32, count: u32 },
    Drawn { seed: u32, modulus: u32, count: u32 },
}

// The numbers of a request, and where each of its arguments ends among them. They stand side by side, since no heap is used. An argument is
// lent as long as the numbers are, however long the ends are.
#[derive(Clone, Copy)]
pub struct Arguments<'v, 'e> {
    pub values: &'v [u32],
    pub ends: &'e [usize],
}

fn find(text: &[u8], b: u8) -> Option<usize>
    ensures { result ≡ position (λ c. c == b) text.now }
{
    text.iter().position(|c| *c == b)
}

// A piece with a star, from what stands before it and behind it. Numbers are read from left to right.
#[tactic(auto, using(std::proofs::lemmas::List::take_rest), unfolding(crate::specs::Piece::repeated_of, crate::specs::Piece::drawn_of, crate::specs::Piece::same_piece, crate::specs::Piece::then_of))]
fn repeated(front: &[u8], count: &[u8]) -> Result<Piece, Slip>
    ensures { result ≡ repeated_of front.now (numeral_of count.now) }
{
    match find(front, b'%') {
        Some(at) => {
            let seed = tokens::read_numeral(&front[..at])?;
            let modulus = tokens::read_numeral(&front[at + 1..])?;
            let count = tokens::read_numeral(count)?;
            Ok(Piece::Drawn {
                seed,
                modulus,
                count,
            })
        }
        None => {
            let value = tokens::read_numeral(front)?;
            let count = tokens::read_numeral(count)?;
            Ok(Piece::Same { value, count })
        }
    }
}

#[tactic(auto, using(std::proofs::lemmas::List::take_rest), unfolding(crate::specs::Piece::piece_of, crate::specs::Piece::same_piece, crate::specs::Piece::then_of))]
fn read_piece(piece: &[u8]) -> Result<Piece, Slip>
    ensures { result ≡ piece_of piece.now }
{
    match find(piece, b'*') {
        Some(at) => repeated(&piece[..at], &piece[at + 1..]),
        None => {
            let value = tokens::read_numeral(piece)?;
            Ok(Piece::Same { value, count: 1 })
        }
    }
}

#[tactic(auto, unfolding(crate::specs::Drawn::start))]
fn first_state(seed: u32) -> u64
    ensures { (result ≡ start seed) × (result < prime47) }
{
    (u64::from(seed) + 1) * 2330089441 % 140737488355213
}

#[tactic(auto, unfolding(crate::specs::Drawn::next))]
fn next_state(x: u64) -> u64
    requires { x < prime47 }
    ensures { (result ≡ next x) × (result < prime47) }
{
    x * 48271 % 140737488355213
}

// Draws as many numbers as there are words.
fn draw(out: &mut [u32], seed: u32, modulus: u32)
    requires { 0 < modulus }
    ensures { out.new ≡ drawn modulus (length out.old) (start seed) }
{
    let mut x = first_state(seed);
    for word in out.iter_mut() {
        x = next_state(x);
        *word = (x % u64::from(modulus)) as u32;
    }
}

// Writes the numbers of a piece over the first words, and answers how many there are.
fn write_piece(piece: Piece, out: &mut [u32]) -> Result<usize, Slip>
    ensures { (result ≡ (piece_written (length out.old) (Ok piece)).says) × (out.new ≡ over (piece_written (length out.old) (Ok piece)).numbers out.old) }
{
    match piece {
        Piece::Same { value, count } => {
            let k = count as usize;
            if k > out.len() {
                return Err(Slip::TooLong);
            }
            out[..k].fill(value);
            Ok(k)
        }
        Piece::Drawn {
            seed,
            modulus,
            count,
        } => {
            let k = count as usize;
            if modulus == 0 {
                return Err(Slip::NoModulus);
            }
            if k > out.len() {
                return Err(Slip::TooLong);
            }
            draw(&mut out[..k], seed, modulus);
            Ok(k)
        }
    }
}

// Writes the numbers of a word over the first words of out, piece by piece, and answers how many there are.
pub fn read_list(word: &[u8], out: &mut [u32]) -> Result<usize, Slip>
    ensures { (result ≡ (list_of (length out.old) word.now).says) × (out.new ≡ over (list_of (length out.old) word.now).numbers out.old) }
{
    let mut used = 0;
    for part in word.split(|b| *b == b',') {
        let piece = read_piece(part)?;
        let k = write_piece(piece, &mut out[used..])?;
        used += k;
    }
    Ok(used)
}

// Reads every word of a text as an argument, and answers how many there are. The numbers go to values, and to ends where each argument ends.
pub fn read_arguments(text: &[u8], values: &mut [u32], ends: &mut [usize]) -> Result<usize, Slip>
    ensures said { result ≡ (arguments_of (length values.old) (length ends.old) text.now).says }
    ensures values_left { values.new ≡ over (arguments_of (length values.old) (length ends.old) text.now).numbers values.old }
    ensures ends_left { ends.new ≡ over (arguments_of (length values.old) (length ends.old) text.now).ends ends.old }
{
    let mut here = Position { at: 0, line: 1 };
    let mut used = 0;
    let mut count = 0;
    // No `for`: the words come until the text ends, each from where the one before it ended.
    while let Ok(word) = tokens::take_word(text, here) {
        if count >= ends.len() {
            return Err(Slip::TooMany);
        }
        let k = read_list(&text[word.from..word.to], &mut values[used..])?;
        used += k;
        ends[count] = used;
        count += 1;
        here = Position {
            at: word.to,
            line: word.line,
        };
    }
    Ok(count)
}

impl<'v> Arguments<'v, '_> {
    // Whether a call that takes so many numbers and so many slices takes these arguments.
    pub fn is_shape(&self, numbers: usize, slices: usize) -> bool
        ensures { (result ≡ true) ↔ Shape numbers slices self.now.ends.now }
    {
        if self.ends.len() < numbers || self.ends.len() - numbers != slices {
            return false;
        }
        self.ends[..numbers]
            .iter()
            .enumerate()
            .all(|(i, end)| *end == i + 1)
    }

    // Place i of the ends, 0 past the last.
    fn end_at(&self, i: usize) -> usize
        ensures { result ≡ get_or self.now.ends.now i 0 }
    {
        self.ends.get(i).copied().unwrap_or(0)
    }

    #[tactic(auto, unfolding(crate::specs::Argument::start_of))]
    fn start_of(&self, i: usize) -> usize
        ensures { result ≡ start_of self.now.ends.now i }
    {
        if i == 0 { 0 } else { self.end_at(i - 1) }
    }

    // Argument i, counted from 0. An end past the last number stands for the last.
    pub fn argument(&self, i: usize) -> &'v [u32]
        ensures { result.now ≡ argument_of self.now.values.now self.now.ends.now i }
    {
        let end = self.end_at(i).min(self.values.len());
        let start = self.start_of(i).min(end);
        &self.values[start..end]
    }
}
