// What a call takes: so many numbers, and slices of kinds.
use crate::fault::Fault;
use crate::lend::{FILE, JOB_TEXT, TEXT, WORDS};
use crate::say::Form;
use request::{Arguments, Slip};
use std::array;

// How many words a call takes at most.
const ARGUMENTS: usize = 8;

// What a slice is to a call.
#[derive(Clone, Copy)]
pub enum Kind {
    Read,
    Written,
    File,
    Text,
    JobText,
    Block,
    Type,
    Series,
}

fn has_room(slice: &[u32], room: usize) -> Result<(), Fault> {
    if slice.len() <= room {
        Ok(())
    } else {
        Err(Fault::Words(Slip::TooLong))
    }
}

fn has_length(slice: &[u32], length: usize) -> Result<(), Fault> {
    if slice.len() == length {
        Ok(())
    } else {
        Err(Fault::OtherLength)
    }
}

fn are_bytes(slice: &[u32], room: usize) -> Result<(), Fault> {
    if slice.iter().any(|word| *word > 255) {
        return Err(Fault::NoByte);
    }
    has_room(slice, room)
}

impl Kind {
    fn test(self, slice: &[u32]) -> Result<(), Fault> {
        match self {
            Kind::Read => Ok(()),
            Kind::Written => has_room(slice, WORDS),
            Kind::File => are_bytes(slice, FILE),
            Kind::Text => are_bytes(slice, TEXT),
            Kind::JobText => are_bytes(slice, JOB_TEXT),
            Kind::Block => {
                are_bytes(slice, FILE)?;
                has_length(slice, 512)
            }
            Kind::Type => has_length(slice, 8),
            Kind::Series => has_length(slice, 2040),
        }
    }
}

// The words behind a call's name, and how buffers are said. The place for their numbers is lent beside it: the borrow checker does not cover a struct
// that holds a `&mut` and is passed on.
#[derive(Clone, Copy)]
pub struct Request<'a> {
    pub text: &'a [u8],
    pub form: Form,
}

// The arguments of a request that fits its call.
#[derive(Clone, Copy)]
pub struct Given<'a, const N: usize> {
    pub numbers: [u32; N],
    pub form: Form,
    values: &'a [u32],
    ends: [usize; ARGUMENTS],
    count: usize,
}

impl Request<'_> {
    // The arguments, with their numbers in values, of a call that takes so many numbers and slices of these kinds.
    pub fn arguments<'a, const N: usize>(
        &self,
        values: &'a mut [u32],
        kinds: &[Kind],
    ) -> Result<Given<'a, N>, Fault> {
        let mut ends = [0usize; ARGUMENTS];
        let count = request::read_arguments(self.text, values, &mut ends)?;
        let read = Arguments {
            values,
            ends: &ends[..count.min(ARGUMENTS)],
        };
        if !read.is_shape(N, kinds.len()) {
            return Err(Fault::OtherArguments);
        }
        let given = Given {
            numbers: array::from_fn(|i| values.get(i).copied().unwrap_or(0)),
            form: self.form,
            values,
            ends,
            count,
        };
        for (i, kind) in kinds.iter().enumerate() {
            kind.test(given.slice(i))?;
        }
        Ok(given)
    }
}

impl<'a, const N: usize> Given<'a, N> {
    // The slice behind the numbers and so many others.
    pub fn slice(&self, i: usize) -> &'a [u32] {
        let read = Arguments {
            values: self.values,
            ends: &self.ends[..self.count.min(ARGUMENTS)],
        };
        read.argument(N.wrapping_add(i))
    }
}
