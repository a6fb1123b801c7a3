// The engine for programs that are not written in Rattle: one function for each public call, on numbers and lent slices.
// Each answers a status word, 0 or the refusal's number, and writes the values of a result to a lent answer slice. None has a premise.
// Crate embed_c exports them to C.
#![tactic(auto, using(crate::proofs::Given::other_length))]

ghost use Rattle.std.specs.Prelude.{◌≡◌, List, [], ◌∷◌, ℕ, ◌^◌, ◌<◌, length, IfOk};
ghost use Rattle.field.specs.Calls.{MakeOutcome, AddOutcome, MultiplyOutcome, InvertOutcome};
ghost use Rattle.field.specs.Number.{number_of};
ghost use Rattle.engine.specs.Basis.{BasisOutcome};
ghost use Rattle.engine.specs.Approximant.{ApproximantOutcome};
ghost use Rattle.sets.specs.Bases.{BasesOutcome};
ghost use Rattle.pade.specs.Pair.{PairOutcome};
ghost use Rattle.jobfile.specs.Outcomes.{ReadOutcome, WriteOutcome};
ghost use Rattle.jobtext.specs.Job.{job_of_text};
ghost use Rattle.jobreport.specs.Printed.{PrintOutcome};
ghost use Rattle.report.specs.Calls.{BasisTextOutcome, RefusalTextOutcome};
ghost use Rattle.embed.specs.Parsing.{slip_number, fault_line, ParseOutcome};
ghost use Rattle.embed.specs.Says.{says};
ghost use Rattle.embed.specs.Status.{status_of, words_left};
ghost use Rattle.embed.specs.Lengths.{residue_answer_length, count_answer_length, basis_answer_length, row_answer_length, job_answer_length};
ghost use Rattle.embed.specs.Given.{Told, Given};
ghost use Rattle.embed.specs.RowAt.{RowSaid};

use engine::BasisResult;
use field::{Field, Refusal};
use jobfile::{SERIES_WORDS, TYPE_WORDS};
use jobtext::{Fault, Slip};
use sizes::{Job, JobSizes};

// The status of the inverse of zero, which has no number.
const NO_INVERSE: u32 = 256;

// The status of an answer slice of another length than stated. Each call has that test in its own body, which is the plainer form:
// of a closure that a helper does not run nothing says that the buffers that it captures stay as lent.
const OTHER_LENGTH: u32 = 4;

// The length of an answer slice for where a row starts and its length, which have no type of their own.
const ROW_ANSWER_LENGTH: usize = 2;

// A result as the words of an answer slice.
trait Words {
    const ANSWER_LENGTH: usize;

    ghost ANSWER_LENGTH: { ℕ };

    ghost words: { Self → List ℕ };

    // Whether each number is a word.
    ghost Fits: { Self → Type 0 } = { λ _. Unit };

    fn write(self, answer: &mut [u32])
        requires fits { Fits self }
        requires length { length answer.old ≡ ANSWER_LENGTH }
        ensures { answer.new ≡ words self };
}

// A residue, or how many blocks were written.
impl Words for u32 {
    const ANSWER_LENGTH: usize = 1;

    ghost ANSWER_LENGTH = { residue_answer_length };

    ghost words = { λ x. x ∷ [] };

    fn write(self, answer: &mut [u32]) {
        answer.copy_from_slice(&[self]);
    }
}

// How many bytes were written.
impl Words for usize {
    const ANSWER_LENGTH: usize = 1;

    ghost ANSWER_LENGTH = { count_answer_length };

    ghost words = { λ x. x ∷ [] };

    ghost Fits = { λ x. x < 2 ^ 32 };

    fn write(self, answer: &mut [u32]) {
        answer.copy_from_slice(&[self as u32]);
    }
}

// The least row's number and how many orders made V smaller.
impl Words for BasisResult {
    const ANSWER_LENGTH: usize = 2;

    ghost ANSWER_LENGTH = { basis_answer_length };

    ghost words = { λ found. found.least ∷ found.count ∷ [] };

    fn write(self, answer: &mut [u32]) {
        answer.copy_from_slice(&[self.least, self.count]);
    }
}

impl Words for JobSizes {
    const ANSWER_LENGTH: usize = 3;

    ghost ANSWER_LENGTH = { job_answer_length };

    ghost words = { λ job. job.p ∷ job.n ∷ job.s ∷ [] };

    fn write(self, answer: &mut [u32]) {
        answer.copy_from_slice(&[self.p, self.n, self.s]);
    }
}

// What is wrong, as a status word.
trait Numbered {
    ghost number: { Self → ℕ };

    fn number(self) -> u32
        ensures { result ≡ number self };
}

impl Numbered for Refusal {
    ghost number = { number_of };

    fn number(self) -> u32 {
        Refusal::number(self)
    }
}

// A slip of the text that has no number has a status of its own.
impl Numbered for Fault {
    ghost number = { λ fault. slip_number fault.slip };

    fn number(self) -> u32 {
        match self.slip {
            Slip::Modulus => 1,
            Slip::Count => 2,
            Slip::Order => 3,
            Slip::Entry => 5,
            Slip::Coefficient => 6,
            Slip::NotNumber => 257,
            Slip::TooLarge => 258,
            Slip::EndsEarly => 259,
            Slip::TooMany => 260,
        }
    }
}

// The status word, and a result's words in the answer slice. Status words are numbers because C programs read them.
fn tell<T: Words, E: Numbered>(said: Result<T, E>, answer: &mut [u32]) -> u32
    requires fits { IfOk said T.Fits }
    requires length { length answer.old ≡ T.ANSWER_LENGTH }
    ensures { (result ≡ status_of (says T.words E.number said)) × (answer.new ≡ words_left (says T.words E.number said) answer.old) }
{
    match said {
        Ok(value) => {
            value.write(answer);
            0
        }
        Err(wrong) => wrong.number(),
    }
}

// The status word of a call that has no words to answer.
fn status<T: Drop>(said: Result<T, Refusal>) -> u32
    ensures { result ≡ status_of (says (λ _. []) number_of said) }
{
    said.map_or_else(Refusal::number, |_| 0)
}

pub fn relations_modulus(p: u32) -> u32
    ensures { Told (MakeOutcome p) result }
{
    status(Field::make(p))
}

pub fn relations_add(p: u32, a: u32, b: u32, answer: &mut [u32]) -> u32
    ensures { Given residue_answer_length (AddOutcome p a b) Unit answer.old result answer.new }
{
    if answer.len() != u32::ANSWER_LENGTH {
        return OTHER_LENGTH;
    }
    tell(Field::add(p, a, b), answer)
}

pub fn relations_multiply(p: u32, a: u32, b: u32, answer: &mut [u32]) -> u32
    ensures { Given residue_answer_length (MultiplyOutcome p a b) Unit answer.old result answer.new }
{
    if answer.len() != u32::ANSWER_LENGTH {
        return OTHER_LENGTH;
    }
    tell(Field::multiply(p, a, b), answer)
}

pub fn relations_invert(p: u32, a: u32, answer: &mut [u32]) -> u32
    ensures { Given residue_answer_length (InvertOutcome p a) Unit answer.old result answer.new }
{
    if answer.len() != u32::ANSWER_LENGTH {
        return OTHER_LENGTH;
    }
    match Field::invert(p, a).transpose() {
        Some(said) => tell(said, answer),
        None => NO_INVERSE,
    }
}

pub fn relations_basis(
    p: u32,
    n: u32,
    s: u32,
    d: &[u32],
    series: &[u32],
    basis: &mut [u32],
    answer: &mut [u32],
) -> u32
    ensures { Given basis_answer_length (λ said. BasisOutcome p n s d.now series.now basis.old said basis.new) (basis.new ≡ basis.old) answer.old result answer.new }
{
    if answer.len() != BasisResult::ANSWER_LENGTH {
        return OTHER_LENGTH;
    }
    let job = Job {
        sizes: JobSizes { p, n, s },
        d,
        series,
    };
    tell(engine::basis(job, basis), answer)
}

pub fn relations_bases(
    p: u32,
    n: u32,
    s: u32,
    sets: u32,
    d: &[u32],
    series: &[u32],
    bases: &mut [u32],
    answers: &mut [u32],
) -> u32
    ensures { Told (λ said. BasesOutcome p n s sets d.now series.now bases.old answers.old said bases.new answers.new) result }
{
    let job = Job {
        sizes: JobSizes { p, n, s },
        d,
        series,
    };
    status(sets::bases(job, sets, bases, answers))
}

pub fn relations_approximant(
    p: u32,
    n: u32,
    d: &[u32],
    series: &[u32],
    basis: &mut [u32],
    answer: &mut [u32],
) -> u32
    ensures { Given basis_answer_length (λ said. ApproximantOutcome p n d.now series.now basis.old said basis.new) (basis.new ≡ basis.old) answer.old result answer.new }
{
    if answer.len() != BasisResult::ANSWER_LENGTH {
        return OTHER_LENGTH;
    }
    tell(engine::approximant(p, n, d, series, basis), answer)
}

pub fn relations_pair(p: u32, k: u32, g: &[u32], r: &mut [u32], t: &mut [u32]) -> u32
    ensures { Told (λ said. PairOutcome p k g.now r.old t.old said r.new t.new) result }
{
    status(pade::pair(p, k, g, r, t))
}

pub fn relations_row(n: u32, s: u32, i: u32, basis: &[u32], answer: &mut [u32]) -> u32
    ensures { Given row_answer_length (RowSaid basis.now n s i) Unit answer.old result answer.new }
{
    if answer.len() != ROW_ANSWER_LENGTH {
        return OTHER_LENGTH;
    }
    let count = engine::row_view(basis, n, s, i).len();
    // Row 0 is not there, and no row of a basis that does not fit: then count is 0, and so is start.
    let start = (i as usize).saturating_sub(1) * count;
    answer.copy_from_slice(&[start as u32, count as u32]);
    0
}

pub fn relations_read(file: &[u8], d: &mut [u32], series: &mut [u32], answer: &mut [u32]) -> u32
    ensures { Given job_answer_length (λ said. ReadOutcome file.now d.old series.old said d.new series.new) ((d.new ≡ d.old) × (series.new ≡ series.old)) answer.old result answer.new }
{
    if answer.len() != JobSizes::ANSWER_LENGTH {
        return OTHER_LENGTH;
    }
    tell(jobfile::read_job(file, d, series), answer)
}

pub fn relations_write(
    p: u32,
    n: u32,
    s: u32,
    d: &[u32],
    series: &[u32],
    file: &mut [u8],
    answer: &mut [u32],
) -> u32
    ensures { Given count_answer_length (λ said. WriteOutcome p n s d.now series.now file.old said file.new) (file.new ≡ file.old) answer.old result answer.new }
{
    if answer.len() != u32::ANSWER_LENGTH {
        return OTHER_LENGTH;
    }
    let job = Job {
        sizes: JobSizes { p, n, s },
        d,
        series,
    };
    tell(jobfile::write_job(job, file), answer)
}

pub fn relations_text(
    p: u32,
    n: u32,
    s: u32,
    d: &[u32],
    basis: &[u32],
    least: u32,
    text: &mut [u8],
    answer: &mut [u32],
) -> u32
    ensures { Given count_answer_length (BasisTextOutcome p n s d.now basis.now least text.old text.new) (text.new ≡ text.old) answer.old result answer.new }
{
    if answer.len() != usize::ANSWER_LENGTH {
        return OTHER_LENGTH;
    }
    tell(report::write_basis(p, n, s, d, basis, least, text), answer)
}

pub fn relations_refused(number: u32, text: &mut [u8], answer: &mut [u32]) -> u32
    ensures { Given count_answer_length (RefusalTextOutcome number text.old text.new) (text.new ≡ text.old) answer.old result answer.new }
{
    if answer.len() != usize::ANSWER_LENGTH {
        return OTHER_LENGTH;
    }
    tell(report::write_refusal(number, text), answer)
}

pub fn relations_print(file: &[u8], text: &mut [u8], answer: &mut [u32]) -> u32
    ensures { Given count_answer_length (PrintOutcome file.now text.old text.new) (text.new ≡ text.old) answer.old result answer.new }
{
    if answer.len() != usize::ANSWER_LENGTH {
        return OTHER_LENGTH;
    }
    tell(jobreport::print_job(file, text), answer)
}

pub fn relations_parse(
    text: &[u8],
    d: &mut [u32; TYPE_WORDS],
    series: &mut [u32; SERIES_WORDS],
    answer: &mut [u32],
) -> u32
    ensures { Given job_answer_length (ParseOutcome text.now d.old series.old d.new series.new) ((d.new ≡ d.old) × (series.new ≡ series.old)) answer.old result answer.new }
{
    if answer.len() != JobSizes::ANSWER_LENGTH {
        return OTHER_LENGTH;
    }
    tell(jobtext::parse(text, d, series), answer)
}

// The line, counted from 1, of what is wrong with a text job; 0 where nothing is.
pub fn relations_parse_line(text: &[u8]) -> usize
    ensures { result ≡ fault_line (job_of_text text.now) }
{
    let mut d = [0u32; TYPE_WORDS];
    let mut series = [0u32; SERIES_WORDS];
    jobtext::parse(text, &mut d, &mut series).map_or_else(|fault| fault.line, |_| 0)
}
