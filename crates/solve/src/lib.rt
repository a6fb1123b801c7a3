// The reduced minimal basis of V_s, its least row and its count, on a problem that a call has tested: what every call with a basis shares.
#![tactic(auto)]

ghost use Rattle.std.specs.Prelude.{◌≡◌, ◌^◌, ◌<◌, ◌≤◌, length, sum_by};
ghost use Rattle.sizes.specs.Lengths.{basis_length};
ghost use Rattle.solve.specs.Found.{BasisFound};

use degree::Degree;
use step::Problem;

// The least row, counted from 0, and how many orders made V smaller.
#[derive(Clone, Copy)]
pub struct Solved {
    pub least: usize,
    pub count: usize,
}

fn pivot_sum(tops: &[Degree]) -> usize
    requires { sum_by (λ (t : Degree). t.0) tops.now < 2 ^ 64 }
    ensures { result ≡ sum_by (λ (t : Degree). t.0) tops.now }
{
    tops.iter().map(|t| t.0).sum()
}

// Both are read off the pivot degrees of the basis that is written.
pub fn solve(problem: Problem<'_>, out: &mut [u32]) -> Solved
    requires { (1 ≤ problem.n) × (length out.old ≡ basis_length problem.n problem.s) }
    ensures { BasisFound problem.entry.field.modulus problem.entry.n problem.entry.s problem.entry.d.now problem.entry.series.now out.new result.least result.count }
{
    let tops = step::reduced_basis(problem, out);
    Solved {
        least: step::least_row([1; 8], tops, problem.d).unwrap(),
        count: pivot_sum(&tops[..problem.n]),
    }
}
