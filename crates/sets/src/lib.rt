// The bases of many sets of series that share modulus, sizes and type, in one call. It tests every argument and has no premise.
#![tactic(auto)]

ghost use Rattle.std.specs.Prelude.{◌≡◌, ◌*◌, ◌<◌, ◌≤◌, length};
ghost use Rattle.field.specs.Prime.{Prime};
ghost use Rattle.field.specs.Calls.{Tests};
ghost use Rattle.words.specs.Part.{part};
ghost use Rattle.sizes.specs.Lengths.{basis_length};
ghost use Rattle.step.specs.Prime.{Prime-prop};
ghost use Rattle.step.specs.Offset.{TypeWords};
ghost use Rattle.engine.specs.Answers.{basis_says};
ghost use Rattle.sets.specs.Answer.{bases_says, answer_length, answer_words};
ghost use Rattle.sets.specs.Orders.{lent_order, bases_order};
ghost use Rattle.sets.specs.Set.{SetOutcome, SetAnswered};
ghost use Rattle.sets.specs.Bases.{BasesAnswered, BasesOutcome};

use engine::BasisResult;
use field::{Field, Refusal};
use sizes::Job;
use step::Problem;

// The words of a set's answer.
const ANSWER_LENGTH: usize = 3;

// Lengths are multiplied only once n, s and the number of sets are known to be small.
fn test_lent(job: Job<'_>, sets: usize, bases: usize, answers: usize) -> Result<(), Refusal>
    requires { (job.sizes.n ≤ 8) × (job.sizes.s ≤ 255) }
    ensures { Tests (lent_order job.entry.sizes.n job.entry.sizes.s sets job.entry.d.now (length job.entry.series.now) bases answers) result }
{
    let n = job.sizes.n as usize;
    let s = job.sizes.s as usize;
    if sets > 16 {
        return Err(Refusal::Sets);
    }
    if job.d.len() != n {
        return Err(Refusal::Length);
    }
    if job.series.len() != sets * (n * s) {
        return Err(Refusal::Length);
    }
    if bases != sets * (n * (n * (s + 1))) {
        return Err(Refusal::Length);
    }
    if answers != sets * ANSWER_LENGTH {
        return Err(Refusal::Length);
    }
    if sizes::any_entry_outside(job.d) {
        return Err(Refusal::Entry);
    }
    Ok(())
}

fn test_bases(job: Job<'_>, sets: u32, bases: usize, answers: usize) -> Result<(), Refusal>
    ensures { Tests (bases_order job.entry.sizes.p job.entry.sizes.n job.entry.sizes.s sets job.entry.d.now (length job.entry.series.now) bases answers) result }
{
    sizes::test_sizes(job.sizes)?;
    test_lent(job, sets as usize, bases, answers)
}

fn write_answer(answer: Result<BasisResult, Refusal>, words: &mut [u32])
    requires { length words.old ≡ answer_length }
    ensures { words.new ≡ answer_words answer }
{
    match answer {
        Ok(found) => words.copy_from_slice(&[0, found.least, found.count]),
        Err(e) => words.copy_from_slice(&[e.number(), 0, 0]),
    }
}

// Sets of series, end to end, that share a field, sizes and a type.
#[derive(Clone, Copy)]
struct Sets<'a> {
    pub field: Field,
    pub n: usize,
    pub s: usize,
    pub count: usize,
    pub d: &'a [u32],
    pub series: &'a [u32],
    pub ghost prime: { Prime field.modulus } by { Prime-prop field.modulus },
    pub ghost some: { 1 ≤ n },
    pub ghost few: { n ≤ 8 },
    pub ghost short: { s ≤ 255 },
    pub ghost types: { TypeWords n d.now },
    pub ghost full: { length series.now ≡ count * (n * s) },
}

impl Sets<'_> {
    // The basis of set j, as the single call gives it on tested arguments.
    fn set_basis(&self, j: usize, basis: &mut [u32]) -> Result<BasisResult, Refusal>
        requires { (j < self.now.count) × (length basis.old ≡ basis_length self.now.n self.now.s) }
        ensures { SetOutcome self.now.field.modulus self.now.n self.now.s self.now.d.now (part (self.now.n * self.now.s) j self.now.series.now) basis.old (basis_says result) basis.new }
    {
        let set = words::part_at(self.series, j, self.n * self.s);
        if words::any_from(set, self.field.modulus) {
            return Err(Refusal::Coefficient);
        }
        let problem = Problem {
            field: self.field,
            n: self.n,
            s: self.s,
            d: self.d,
            series: set,
        };
        Ok(engine::answered(problem, basis))
    }

    fn answer_set(&self, j: usize, basis: &mut [u32], words: &mut [u32])
        requires { (j < self.now.count) × (length basis.old ≡ basis_length self.now.n self.now.s) × (length words.old ≡ answer_length) }
        ensures { SetAnswered self.now.field.modulus self.now.n self.now.s self.now.d.now (part (self.now.n * self.now.s) j self.now.series.now) basis.old basis.new words.new }
    {
        write_answer(self.set_basis(j, basis), words);
    }

    // Set after set: a refused one leaves its part of the bases, and the next has its turn.
    fn answer_sets(&self, bases: &mut [u32], answers: &mut [u32])
        requires { (length bases.old ≡ self.now.count * basis_length self.now.n self.now.s) × (length answers.old ≡ self.now.count * answer_length) }
        ensures { BasesAnswered self.now.field.modulus self.now.n self.now.s self.now.count self.now.d.now self.now.series.now bases.old bases.new answers.new }
    {
        let size = self.n * (self.n * (self.s + 1));
        // By place: std says nothing of what a loop over mutable parts has left.
        for j in 0..self.count {
            let start = j * size;
            let from = j * ANSWER_LENGTH;
            self.answer_set(
                j,
                &mut bases[start..start + size],
                &mut answers[from..from + ANSWER_LENGTH],
            );
        }
    }
}

// The sets' series lie end to end in the job's.
pub fn bases(job: Job<'_>, sets: u32, bases: &mut [u32], answers: &mut [u32]) -> Result<(), Refusal>
    ensures { BasesOutcome job.entry.sizes.p job.entry.sizes.n job.entry.sizes.s sets job.entry.d.now job.entry.series.now bases.old answers.old (bases_says result) bases.new answers.new }
{
    test_bases(job, sets, bases.len(), answers.len())?;
    let sets = Sets {
        field: Field {
            modulus: job.sizes.p,
        },
        n: job.sizes.n as usize,
        s: job.sizes.s as usize,
        count: sets as usize,
        d: job.d,
        series: job.series,
    };
    sets.answer_sets(bases, answers);
    Ok(())
}
