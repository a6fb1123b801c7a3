// The sizes of document 01: the tests with which calls on n series begin, in the order of their refusals.
#![tactic(auto)]

ghost use Rattle.std.specs.Prelude.{◌≡◌, true, ◌↔◌, ◌≤◌};
ghost use Rattle.field.specs.Calls.{Tests};
ghost use Rattle.words.specs.Some.{Some};
ghost use Rattle.sizes.specs.Entry.{EntryOutside};
ghost use Rattle.sizes.specs.Orders.{start_order, sizes_order, job_order};

use field::{Field, Refusal};

// What a job file and a text job say besides the type and the series.
#[derive(Clone, Copy)]
pub struct JobSizes {
    pub p: u32,
    pub n: u32,
    pub s: u32,
}

// A job, with its type and its series as they are lent.
#[derive(Clone, Copy)]
pub struct Job<'a> {
    pub sizes: JobSizes,
    pub d: &'a [u32],
    pub series: &'a [u32],
}

// 1, 2
pub fn test_start(p: u32, n: u32) -> Result<(), Refusal>
    ensures { Tests (start_order p n) result }
{
    if !Field::admits(p) {
        return Err(Refusal::Modulus);
    }
    if n < 1 || n > 8 {
        return Err(Refusal::Count);
    }
    Ok(())
}

// 1, 2, 3
pub fn test_sizes(sizes: JobSizes) -> Result<(), Refusal>
    ensures { Tests (sizes_order sizes.p sizes.n sizes.s) result }
{
    test_start(sizes.p, sizes.n)?;
    if sizes.s > 255 {
        return Err(Refusal::Order);
    }
    Ok(())
}

pub fn any_entry_outside(d: &[u32]) -> bool
    ensures { (result ≡ true) ↔ Some EntryOutside d.now }
{
    words::any_from(d, 256)
}

// 4 for type and series, 5, 6. Lengths are multiplied only once n and s are known to be small. A type for small sizes would be made and taken
// apart at each of its callers, which is no plainer.
pub fn test_job(job: Job<'_>) -> Result<(), Refusal>
    requires { (job.sizes.n ≤ 8) × (job.sizes.s ≤ 255) }
    ensures { Tests (job_order job.entry.sizes.p job.entry.sizes.n job.entry.sizes.s job.entry.d.now job.entry.series.now) result }
{
    let n = job.sizes.n as usize;
    if job.d.len() != n || job.series.len() != n * job.sizes.s as usize {
        return Err(Refusal::Length);
    }
    if any_entry_outside(job.d) {
        return Err(Refusal::Entry);
    }
    if words::any_from(job.series, job.sizes.p) {
        return Err(Refusal::Coefficient);
    }
    Ok(())
}
