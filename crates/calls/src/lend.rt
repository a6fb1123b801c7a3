// Arguments in buffers of their own.

// The largest basis, and a word more for a length that is refused.
pub const WORDS: usize = 16_385;

// A block more than the largest job file has, and a byte more.
pub const FILE: usize = 9_217;

// More than the text of the largest job has.
pub const JOB_TEXT: usize = 32_768;

// The longest text of a basis, and a byte more.
pub const TEXT: usize = 180_810;

// The front of the buffer with the items over it, as many as there is room for. An item that does not fit is left out: bytes are tested before.
pub fn lend<'a, T: Copy, U: TryFrom<T> + Drop>(items: &[T], buffer: &'a mut [U]) -> &'a mut [U]
where
    U::Error: Drop,
{
    for (to, from) in buffer.iter_mut().zip(items) {
        if let Ok(item) = U::try_from(*from) {
            *to = item;
        }
    }
    let end = items.len().min(buffer.len());
    &mut buffer[..end]
}
