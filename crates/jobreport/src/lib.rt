// The text that is printed for a job file: read the job, work out its basis, write the lines.
#![tactic(auto)]

ghost use Rattle.std.specs.Prelude.{◌≡◌, length};
ghost use Rattle.report.specs.Calls.{text_says};
ghost use Rattle.sizes.specs.Lengths.{basis_length};
ghost use Rattle.jobfile.specs.Job.{Admitted, lent_job};
ghost use Rattle.jobreport.specs.Printed.{PrintOutcome, JobPrintOutcome};

use field::Refusal;
use jobfile::{SERIES_WORDS, TYPE_WORDS};
use sizes::Job;

// The text of an admitted job's basis, which is worked out in the lent words.
fn print_basis(job: Job<'_>, basis: &mut [u32], out: &mut [u8]) -> Result<usize, Refusal>
    requires { Admitted (lent_job job) × (length basis.old ≡ basis_length job.sizes.n job.sizes.s) }
    ensures { JobPrintOutcome (lent_job job.entry) out.old out.new (text_says result) }
{
    let found = engine::basis(job, basis).unwrap();
    let sizes = job.sizes;
    report::write_basis(sizes.p, sizes.n, sizes.s, job.d, basis, found.least, out)
}

pub fn print_job(file: &[u8], out: &mut [u8]) -> Result<usize, Refusal>
    ensures { PrintOutcome file.now out.old out.new (text_says result) }
{
    let mut d = [0u32; TYPE_WORDS];
    let mut series = [0u32; SERIES_WORDS];
    match jobfile::read_job(file, &mut d, &mut series) {
        Ok(sizes) => {
            let n = sizes.n as usize;
            let s = sizes.s as usize;
            // Fixed memory: the words of the largest basis.
            let mut basis = [0u32; 16384];
            let job = Job {
                sizes,
                d: &d[..n],
                series: &series[..n * s],
            };
            print_basis(job, &mut basis[..n * (n * (s + 1))], out)
        }
        Err(refusal) => report::write_refusal(refusal.number(), out),
    }
}
