// Job files (document 01, "Job file"): a reader that accepts exactly what is laid out, and a writer beside it. Their layout is one
// definition, `layout`. The two public calls test every argument and have no premise; the other functions serve them.
#![tactic(auto)]

ghost use Rattle.std.specs.Prelude.{◌≡◌, ◌+◌, ◌≤◌, length, Ok};
ghost use Rattle.field.specs.Refusal.{NoTest};
ghost use Rattle.field.specs.Calls.{Tests};
ghost use Rattle.block.specs.Part.{payload_at};
ghost use Rattle.jobfile.specs.Lengths.{file_bytes};
ghost use Rattle.jobfile.specs.Job.{Admitted, lent_job};
ghost use Rattle.jobfile.specs.Layout.{words_of};
ghost use Rattle.jobfile.specs.Payload.{sizes_in};
ghost use Rattle.jobfile.specs.Orders.{length_tests, content_tests, word_tests, reader_order, writer_order};
ghost use Rattle.jobfile.specs.Answers.{job_says, write_says};
ghost use Rattle.jobfile.specs.Outcomes.{JobRead, ReadOutcome, JobWritten, WriteOutcome};

use field::Refusal;
use sizes::{Job, JobSizes};

// The lengths of the buffers that are lent.
pub const TYPE_WORDS: usize = 8;

pub const SERIES_WORDS: usize = 2040;

pub const FILE_BYTES: usize = 8704;

// The words of the largest job.
const JOB_WORDS: usize = 3 + TYPE_WORDS + SERIES_WORDS;

fn test_lengths(file: usize, d: usize, series: usize) -> Result<(), Refusal>
    ensures { Tests (length_tests file d series) result }
{
    if d != TYPE_WORDS || series != SERIES_WORDS {
        return Err(Refusal::Length);
    }
    if block::is_bad_length(file, FILE_BYTES) {
        return Err(Refusal::FileLength);
    }
    Ok(())
}

// The count of words, then the type entries and the coefficients, which lie in the file once the count is right.
fn test_contents(file: &[u8], sizes: JobSizes) -> Result<(), Refusal>
    requires { (sizes.n ≤ 8) × (sizes.s ≤ 255) }
    ensures { Tests (content_tests file.now sizes.p sizes.n sizes.s) result }
{
    let n = sizes.n as usize;
    let size = n * sizes.s as usize;
    block::test_count(file, 3 + n + size)?;
    if block::any_payload_from(file, 3, n, 256) {
        return Err(Refusal::Entry);
    }
    if block::any_payload_from(file, 3 + n, size, sizes.p) {
        return Err(Refusal::Coefficient);
    }
    Ok(())
}

// The sizes that a file says.
fn sizes_in(file: &[u8]) -> JobSizes
    requires { 512 ≤ length file.now }
    ensures { result ≡ sizes_in file.now }
{
    JobSizes {
        p: block::payload_word(file, 0),
        n: block::payload_word(file, 1),
        s: block::payload_word(file, 2),
    }
}

fn test_words(file: &[u8]) -> Result<(), Refusal>
    requires { 512 ≤ length file.now }
    ensures { Tests (word_tests file.now (payload_at file.now 0) (payload_at file.now 1) (payload_at file.now 2)) result }
{
    let sizes = sizes_in(file);
    sizes::test_sizes(sizes)?;
    test_contents(file, sizes)
}

fn test_file(file: &[u8], d: usize, series: usize) -> Result<(), Refusal>
    ensures { Tests (reader_order file.now d series) result }
{
    test_lengths(file.len(), d, series)?;
    block::test_blocks(file, 0, file.len() / 512)?;
    test_words(file)
}

// Reads a file that passed its tests.
fn read_tested(file: &[u8], d: &mut [u32], series: &mut [u32]) -> JobSizes
    requires { NoTest (reader_order file.now (length d.old) (length series.old)) }
    ensures { JobRead file.now d.old series.old (job_says (Ok result)) d.new series.new }
{
    let said = sizes_in(file);
    let n = said.n as usize;
    let size = n * said.s as usize;
    block::read_payload(file, 3, &mut d[..n]);
    block::read_payload(file, 3 + n, &mut series[..size]);
    said
}

// Reads a job file: p, n and s are answered, and the first n and the first n * s words written. The buffers lent have TYPE_WORDS and
// SERIES_WORDS words.
pub fn read_job(file: &[u8], d: &mut [u32], series: &mut [u32]) -> Result<JobSizes, Refusal>
    ensures { ReadOutcome file.now d.old series.old (job_says result) d.new series.new }
{
    test_file(file, d.len(), series.len())?;
    Ok(read_tested(file, d, series))
}

fn test_job(job: Job<'_>, out: usize) -> Result<(), Refusal>
    ensures { Tests (writer_order job.entry.sizes.p job.entry.sizes.n job.entry.sizes.s job.entry.d.now job.entry.series.now out) result }
{
    sizes::test_sizes(job.sizes)?;
    if out != FILE_BYTES {
        return Err(Refusal::Length);
    }
    sizes::test_job(job)
}

// Writes a job's words to as many lent ones.
fn gather(words: &mut [u32], job: Job<'_>)
    requires { length words.old ≡ 3 + length job.d.now + length job.series.now }
    ensures { words.new ≡ words_of (lent_job job.entry) }
{
    let after = 3 + job.d.len();
    words[..3].copy_from_slice(&[job.sizes.p, job.sizes.n, job.sizes.s]);
    words[3..after].copy_from_slice(job.d);
    words[after..].copy_from_slice(job.series);
}

// Writes a job that passed its tests, and answers the number of blocks. Here and in the crates above the fact is asked: the next call tests the
// job again, so a type for it would be used once.
fn write_tested(job: Job<'_>, out: &mut [u8]) -> u32
    requires { Admitted (lent_job job) × (length out.old ≡ file_bytes) }
    ensures { JobWritten (lent_job job.entry) out.old (write_says (Ok result)) out.new }
{
    let mut buffer = [0u32; JOB_WORDS];
    let words = &mut buffer[..3 + job.d.len() + job.series.len()];
    gather(words, job);
    block::write_file(words, out)
}

// Writes a job file to the first bytes of out, which has FILE_BYTES bytes, and answers its number of blocks.
pub fn write_job(job: Job<'_>, out: &mut [u8]) -> Result<u32, Refusal>
    ensures { WriteOutcome job.entry.sizes.p job.entry.sizes.n job.entry.sizes.s job.entry.d.now job.entry.series.now out.old (write_says result) out.new }
{
    test_job(job, out.len())?;
    Ok(write_tested(job, out))
}
