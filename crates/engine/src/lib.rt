// The engine's calls: minimal basis, approximant and row view, on lent words. Each tests every argument and has no premise.
#![tactic(auto)]

ghost use Rattle.std.specs.Prelude.{◌≡◌, true, ◌↔◌, ℕ, ◌+◌, ◌++◌, Ok, ◌≤◌, length, sum_by};
ghost use Rattle.field.specs.Calls.{Tests};
ghost use Rattle.words.specs.Some.{Some};
ghost use Rattle.sizes.specs.Entry.{EntryOutside};
ghost use Rattle.sizes.specs.Lengths.{basis_length};
ghost use Rattle.engine.specs.Sigma.{order_of};
ghost use Rattle.engine.specs.Orders.{buffers_order, basis_order, type_order, series_order, approximant_order};
ghost use Rattle.engine.specs.Answers.{basis_says};
ghost use Rattle.engine.specs.Basis.{BasisAnswered, BasisOutcome};
ghost use Rattle.engine.specs.Approximant.{ApproximantOutcome};
ghost use Rattle.engine.specs.RowView.{ViewFits, RowViewed};

use field::{Field, Refusal};
use sizes::Job;
use step::Problem;

// The least row's number, counted from 1, and how many orders made V smaller.
#[derive(Clone, Copy)]
pub struct BasisResult {
    pub least: u32,
    pub count: u32,
}

// Lengths are multiplied only once n and s are known to be small.
fn test_buffers(job: Job<'_>, basis: usize) -> Result<(), Refusal>
    requires { (job.sizes.n ≤ 8) × (job.sizes.s ≤ 255) }
    ensures { Tests (buffers_order job.entry.sizes.p job.entry.sizes.n job.entry.sizes.s job.entry.d.now job.entry.series.now basis) result }
{
    let n = job.sizes.n as usize;
    if basis != n * (n * (job.sizes.s as usize + 1)) {
        return Err(Refusal::Length);
    }
    sizes::test_job(job)
}

fn test_basis(job: Job<'_>, basis: usize) -> Result<(), Refusal>
    ensures { Tests (basis_order job.entry.sizes.p job.entry.sizes.n job.entry.sizes.s job.entry.d.now job.entry.series.now basis) result }
{
    sizes::test_sizes(job.sizes)?;
    test_buffers(job, basis)
}

// (d_1 + 1) + .. + (d_n + 1)
fn word_sum(d: &[u32]) -> usize
    requires { length d.now ≤ 8 }
    ensures { result ≡ sum_by (λ (x : ℕ). x + 1) d.now }
{
    d.iter().map(|e| *e as usize + 1).sum()
}

// σ, for a type that passed its tests.
fn order_of(d: &[u32]) -> usize
    requires { (1 ≤ length d.now) × (length d.now ≤ 8) × (¬ (Some EntryOutside d.now)) }
    ensures { (result ≡ order_of (length d.now) d.now) × (result ≤ 2047) }
{
    word_sum(d) - 1
}

fn test_type(n: usize, d: &[u32]) -> Result<(), Refusal>
    ensures { Tests (type_order n d.now) result }
{
    if d.len() != n {
        return Err(Refusal::Length);
    }
    if sizes::any_entry_outside(d) {
        return Err(Refusal::Entry);
    }
    Ok(())
}

fn test_series(p: u32, n: usize, s: usize, series: &[u32], basis: usize) -> Result<(), Refusal>
    requires { n ≤ 8 }
    ensures { Tests (series_order p n s series.now basis) result }
{
    if s > 255 {
        return Err(Refusal::Order);
    }
    if series.len() != n * s || basis != n * (n * (s + 1)) {
        return Err(Refusal::Length);
    }
    if words::any_from(series, p) {
        return Err(Refusal::Coefficient);
    }
    Ok(())
}

fn test_type_and_series(
    p: u32,
    n: usize,
    d: &[u32],
    series: &[u32],
    basis: usize,
) -> Result<(), Refusal>
    requires { (1 ≤ n) × (n ≤ 8) }
    ensures { Tests (type_order n d.now ++ series_order p n (order_of n d.now) series.now basis) result }
{
    test_type(n, d)?;
    test_series(p, n, order_of(d), series, basis)
}

fn test_approximant(p: u32, n: u32, d: &[u32], series: &[u32], basis: usize) -> Result<(), Refusal>
    ensures { Tests (approximant_order p n d.now series.now basis) result }
{
    sizes::test_start(p, n)?;
    test_type_and_series(p, n as usize, d, series, basis)
}

fn view_fits(words: usize, n: u32, s: u32, i: u32) -> bool
    ensures { (result ≡ true) ↔ ViewFits words n s i }
{
    if n < 1 || n > 8 || s > 255 || i < 1 || i > n {
        return false;
    }
    let rows = n as usize;
    words == rows * (rows * (s as usize + 1))
}

// Row i, counted from 1, as a part of the lent basis; the empty part at its start where the arguments do not fit.
pub fn row_view(basis: &[u32], n: u32, s: u32, i: u32) -> &[u32]
    ensures { RowViewed basis.now n s i result.now }
{
    if view_fits(basis.len(), n, s, i) {
        let at = i as usize - 1;
        words::part_at(basis, at, n as usize * (s as usize + 1))
    } else {
        &basis[..0]
    }
}

// What every call for a basis gives once its tests have passed.
pub fn answered(problem: Problem<'_>, out: &mut [u32]) -> BasisResult
    requires { (1 ≤ problem.n) × (length out.old ≡ basis_length problem.n problem.s) }
    ensures { BasisAnswered problem.entry.field.modulus problem.entry.n problem.entry.s problem.entry.d.now problem.entry.series.now out.new (basis_says (Ok result)) }
{
    let w = solve::solve(problem, out);
    BasisResult {
        least: (w.least + 1) as u32,
        count: w.count as u32,
    }
}

pub fn basis(job: Job<'_>, out: &mut [u32]) -> Result<BasisResult, Refusal>
    ensures { BasisOutcome job.entry.sizes.p job.entry.sizes.n job.entry.sizes.s job.entry.d.now job.entry.series.now out.old (basis_says result) out.new }
{
    test_basis(job, out.len())?;
    let problem = Problem {
        field: Field {
            modulus: job.sizes.p,
        },
        n: job.sizes.n as usize,
        s: job.sizes.s as usize,
        d: job.d,
        series: job.series,
    };
    Ok(answered(problem, out))
}

// No Job: its order is σ of the type, which is not known before the type is tested.
pub fn approximant(
    p: u32,
    n: u32,
    d: &[u32],
    series: &[u32],
    out: &mut [u32],
) -> Result<BasisResult, Refusal>
    ensures { ApproximantOutcome p n d.now series.now out.old (basis_says result) out.new }
{
    test_approximant(p, n, d, series, out.len())?;
    let problem = Problem {
        field: Field { modulus: p },
        n: n as usize,
        s: order_of(d),
        d,
        series,
    };
    Ok(answered(problem, out))
}
