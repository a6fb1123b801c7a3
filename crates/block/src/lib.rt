// One block of 512 bytes: its number, 125 words of payload, and the checks A and B (document 01, "Job file"). Words are 32 bits,
// their bytes the lowest first.
//
// These calls serve the readers and writers of files of blocks, which lend them parts of the right length: each asks for that length
// and is listed in docs/PREMISES.md.
#![tactic(auto)]

ghost use Rattle.std.specs.Prelude.{◌≡◌, ◌+◌, ◌*◌, ◌/◌, ◌≤◌, true, ◌↔◌, length};
ghost use Rattle.block.specs.Word.{word_at};
ghost use Rattle.block.specs.Store.{stored};
ghost use Rattle.block.specs.Checks.{added, summed, checks_of};
ghost use Rattle.block.specs.Block.{block_of};
ghost use Rattle.block.specs.Read.{number_of, Sound};
ghost use Rattle.block.specs.File.{blocks_of, blocks_for, file_of};
ghost use Rattle.block.specs.Part.{blocks_in, payload_at, payload_part};
ghost use Rattle.std.specs.Iterator.{IsFinite};
ghost use Rattle.std.specs.Iterator.Runs.{WholeRun};
ghost use Rattle.words.specs.Lent.{over};
ghost use Rattle.block.specs.Length.{BadLength};
ghost use Rattle.block.specs.Fault.{faults};
ghost use Rattle.block.specs.Count.{count_tests};
ghost use Rattle.field.specs.Calls.{Tests};
ghost use Rattle.words.specs.Polynomial.{poly};
ghost use Rattle.words.specs.Some.{Some};

use field::Refusal;

// Check A and check B.
#[derive(Clone, Copy, PartialEq, Eq)]
pub struct Checks {
    pub a: u32,
    pub b: u32,
}

impl Checks {
    // The checks of one word more: it is added to A, and then the new A to B.
    #[tactic(auto, unfolding(crate::specs::Checks::added))]
    fn added(self, word: u32) -> Checks
        ensures { result ≡ added self word }
    {
        let a = self.a.wrapping_add(word);
        let b = self.b.wrapping_add(a);
        Checks { a, b }
    }
}

// Word i of bytes.
#[tactic(auto, unfolding(crate::specs::Word::word_at))]
fn word_at(bytes: &[u8], i: usize) -> u32
    requires { 4 * i + 4 ≤ length bytes.now }
    ensures { result ≡ word_at bytes.now i }
{
    let at = 4 * i;
    u32::from_le_bytes([bytes[at], bytes[at + 1], bytes[at + 2], bytes[at + 3]])
}

// Makes w word i of bytes.
fn store_word(bytes: &mut [u8], i: usize, w: u32)
    requires { 4 * i + 4 ≤ length bytes.old }
    ensures { bytes.new ≡ stored bytes.old i w }
{
    let at = 4 * i;
    bytes[at..at + 4].copy_from_slice(&w.to_le_bytes());
}

// The checks of words: each is added to those of the words before it.
fn checks_over<I: Iterator<Item = u32>>(words: I) -> Checks
    requires can { I.can_next words }
    requires finite { IsFinite (I.remaining words) }
    ensures { WholeRun I.next_gives words (λ p. result ≡ summed (poly p.items) (length p.items)) }
{
    words.fold(Checks { a: 1, b: 0 }, |checks, word| checks.added(word))
}

// A block that is lent.
#[derive(Clone, Copy)]
struct LentBlock<'a> {
    bytes: &'a [u8],
    ghost whole: { length bytes.now ≡ 512 },
}

impl LentBlock<'_> {
    fn number(self) -> u32
        ensures { result ≡ number_of self.entry.bytes.now }
    {
        word_at(self.bytes, 0)
    }

    // The checks of its words 0 to 125.
    fn checks(self) -> Checks
        ensures { result ≡ checks_of (word_at self.entry.bytes.now) }
    {
        checks_over((0..126).map(|i| word_at(self.bytes, i)))
    }

    // Whether the checks that it holds are right.
    fn is_sound(self) -> bool
        ensures { (result ≡ true) ↔ Sound self.entry.bytes.now }
    {
        let held = Checks {
            a: word_at(self.bytes, 126),
            b: word_at(self.bytes, 127),
        };
        held == self.checks()
    }
}

// The checks of a block's words 0 to 125.
pub fn checks_of(block: &[u8]) -> Checks
    requires { length block.now ≡ 512 }
    ensures { result ≡ checks_of (word_at block.now) }
{
    LentBlock { bytes: block }.checks()
}

// The checks of any words, which sum them as those of a block do.
pub fn sums_of(words: &[u32]) -> Checks
    ensures { result ≡ summed (poly words.now) (length words.now) }
{
    checks_over(words.iter().copied())
}

// Writes a whole block. Its payload is the first 125 of the words, zero past their end.
fn write_block(block: &mut [u8], number: u32, words: &[u32])
    requires { length block.old ≡ 512 }
    ensures { block.new ≡ block_of number words.now }
{
    store_word(block, 0, number);
    for i in 0..125 {
        store_word(block, i + 1, words.get(i).copied().unwrap_or(0));
    }
    let checks = checks_of(block);
    store_word(block, 126, checks.a);
    store_word(block, 127, checks.b);
}

// How many blocks count words take.
#[tactic(auto, unfolding(crate::specs::File::blocks_for))]
fn blocks_for(count: usize) -> usize
    requires { count ≤ 4294967295 }
    ensures { result ≡ blocks_for count }
{
    count.div_ceil(125)
}

// Writes count blocks numbered from first, with 125 of the words in each, zero past their end.
fn write_blocks(out: &mut [u8], first: u32, count: usize, words: &[u32])
    requires out_length { length out.old ≡ 512 * count }
    requires numbers { first + count ≤ 4294967296 }
    requires words_enough { 125 * count ≤ length words.now + 125 }
    ensures { out.new ≡ blocks_of first count words.now }
{
    // `chunks_exact_mut` promises nothing of what the whole ends as, so each block is lent by its place.
    for b in 0..count {
        let at = 512 * b;
        write_block(&mut out[at..at + 512], first + b as u32, &words[125 * b..]);
    }
}

// Writes the file of the words to the first bytes of out, and answers its number of blocks.
pub fn write_file(words: &[u32], out: &mut [u8]) -> u32
    requires words_few { length words.now ≤ 4294967295 }
    requires out_room { 512 * blocks_for (length words.now) ≤ length out.old }
    ensures { (result ≡ blocks_for (length words.now)) × (out.new ≡ over (file_of words.now) out.old) }
{
    let blocks = blocks_for(words.len());
    write_blocks(&mut out[..512 * blocks], 0, blocks, words);
    blocks as u32
}

// Word k of the payloads joined, of a file that is lent whole.
#[tactic(auto, using(crate::proofs::File::payload_place))]
pub fn payload_word(file: &[u8], k: usize) -> u32
    requires { 512 * (k / 125) + 512 ≤ length file.now }
    ensures { result ≡ payload_at file.now k }
{
    word_at(file, 128 * (k / 125) + 1 + k % 125)
}

// Fills out with words of a file's payload, from word `from` on.
pub fn read_payload(file: &[u8], from: usize, out: &mut [u32])
    requires { from + length out.old ≤ 125 * blocks_in file.now }
    ensures { out.new ≡ payload_part file.now from (length out.old) }
{
    for (i, word) in out.iter_mut().enumerate() {
        *word = payload_word(file, from + i);
    }
}

// Whether some of count words of a file's payload, from word `from` on, is at least the bound. Beside words::any_from, since these words
// lie in bytes: one function over both would be no plainer.
pub fn any_payload_from(file: &[u8], from: usize, count: usize, bound: u32) -> bool
    requires { from + count ≤ 125 * blocks_in file.now }
    ensures { (result ≡ true) ↔ Some (λ x. bound ≤ x) (payload_part file.now from count) }
{
    (from..from + count).any(|k| payload_word(file, k) >= bound)
}

// Whether no file of at most `largest` bytes has this length.
pub fn is_bad_length(file: usize, largest: usize) -> bool
    ensures { (result ≡ true) ↔ BadLength largest file }
{
    file == 0 || file % 512 != 0 || file > largest
}

// Tests count blocks in turn, which should be numbered from first. Count is the clauses': the loop takes each block that the file has.
pub fn test_blocks(file: &[u8], first: u32, count: usize) -> Result<(), Refusal>
    requires file_length { length file.now ≡ 512 * count }
    requires numbers { first + count ≤ 4294967296 }
    ensures { Tests (faults first count file.now) result }
{
    for (b, bytes) in file.chunks_exact(512).enumerate() {
        let block = LentBlock { bytes };
        if block.number() != first + b as u32 {
            return Err(Refusal::BlockNumber);
        }
        if !block.is_sound() {
            return Err(Refusal::Check);
        }
    }
    Ok(())
}

// Tests a file that should hold count words. The spare words are looked at only once their blocks are known to be there.
pub fn test_count(file: &[u8], count: usize) -> Result<(), Refusal>
    requires { count ≤ 4294967295 }
    ensures { Tests (count_tests file.now count) result }
{
    let blocks = file.len() / 512;
    if blocks != blocks_for(count) {
        return Err(Refusal::BlockCount);
    }
    if any_payload_from(file, count, 125 * blocks - count, 1) {
        return Err(Refusal::SpareWord);
    }
    Ok(())
}
