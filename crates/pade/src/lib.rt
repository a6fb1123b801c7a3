// The Padé pair: a fraction r / t in lowest terms whose expansion is g to order N, on lent words. It tests every argument and has no premise.
#![tactic(auto)]

ghost use Rattle.std.specs.Prelude.{◌≡◌, ◌+◌, ◌*◌, ◌-◌, ◌<◌, ◌≤◌, length};
ghost use Rattle.field.specs.Prime.{Prime};
ghost use Rattle.field.specs.Calls.{Tests};
ghost use Rattle.words.specs.Polynomial.{poly};
ghost use Rattle.sizes.specs.Lengths.{basis_length};
ghost use Rattle.pade.specs.Answer.{pair_says};
ghost use Rattle.pade.specs.Orders.{arguments_order};
ghost use Rattle.pade.specs.Pair.{PairOutcome};
ghost use Rattle.pade.specs.PairSizes.{PairSizes, PairSizes-prop};
ghost use Rattle.pade.specs.Work.{LeastPair, Scaled, DividedUnlessZero, FractionOrNone};

use field::{Field, Refusal};
use step::Problem;

// The fraction that is asked for: its numerator has k words, and its expansion is g. These arguments passed their tests.
#[derive(Clone, Copy)]
struct Request<'a> {
    field: Field,
    k: usize,
    g: &'a [u32],
    ghost sizes: { PairSizes field.modulus k g.now } by { PairSizes-prop field.modulus k g.now },
}

fn test_arguments(p: u32, k: u32, g: &[u32], r: usize, t: usize) -> Result<(), Refusal>
    ensures { Tests (arguments_order p k g.now r t) result }
{
    let order = g.len();
    let first = k as usize;
    if !Field::admits(p) {
        return Err(Refusal::Modulus);
    }
    if order > 255 {
        return Err(Refusal::Order);
    }
    if first < 1 || order < first {
        return Err(Refusal::Numerator);
    }
    if r != first || t != order - first + 1 {
        return Err(Refusal::Length);
    }
    if words::any_from(g, p) {
        return Err(Refusal::Coefficient);
    }
    Ok(())
}

// h times the first words, as many as are lent.
fn scale(f: Field, h: u32, from: &[u32], into: &mut [u32])
    requires { length into.old ≤ length from.now }
    ensures { Scaled f.modulus h from.now into.new (length into.old) }
{
    for (x, y) in from[..into.len()].iter().enumerate() {
        into[x] = f.plus_product(0, h, *y);
    }
}

// a and b divided by the constant term of b. Where that is zero, there is no fraction, and nothing is written.
fn divide(f: Field, a: &[u32], b: &[u32], r: &mut [u32], t: &mut [u32]) -> Result<(), Refusal>
    requires { Prime f.modulus × (length r.old ≤ length a.now) × (length t.old ≤ length b.now) × (0 < length r.old) × (0 < length t.old) × (poly b.now 0 < f.modulus) }
    ensures { DividedUnlessZero f.modulus a.now b.now r.old t.old result r.new t.new }
{
    let constant = b[0];
    if constant == 0 {
        return Err(Refusal::NoFraction);
    }
    let h = f.inverse(constant);
    scale(f, h, a, r);
    scale(f, h, b, t);
    Ok(())
}

impl Request<'_> {
    // The least row of the reduced basis of -1 and g, of type (k - 1, N - k) and order N. The two series lie end to end.
    fn least_row(self, basis: &mut [u32]) -> usize
        requires { length basis.old ≡ basis_length 2 (length self.g.now) }
        ensures { LeastPair self.entry.field.modulus self.entry.k self.entry.g.now basis.new result }
    {
        let order = self.g.len();
        let mut series = [0u32; 510];
        let series = &mut series[..2 * order];
        series[0] = self.field.modulus - 1;
        series[order..].copy_from_slice(self.g);
        let d = [(self.k - 1) as u32, (order - self.k) as u32];
        let problem = Problem {
            field: self.field,
            n: 2,
            s: order,
            d: &d,
            series,
        };
        solve::solve(problem, basis).least
    }

    // The fraction, worked out in scratch of fixed size.
    fn write_fraction(self, r: &mut [u32], t: &mut [u32]) -> Result<(), Refusal>
        requires { (length r.old ≡ self.k) × (length t.old ≡ length self.g.now - self.k + 1) }
        ensures { FractionOrNone self.entry.field.modulus self.entry.k self.entry.g.now r.old t.old result r.new t.new }
    {
        let width = self.g.len() + 1;
        let mut basis = [0u32; 1024];
        let basis = &mut basis[..4 * width];
        let i = self.least_row(basis);
        let row = words::part_at(basis, i, 2 * width);
        let (a, b) = row.split_at(width);
        divide(self.field, a, b, r, t)
    }
}

pub fn pair(p: u32, k: u32, g: &[u32], r: &mut [u32], t: &mut [u32]) -> Result<(), Refusal>
    ensures { PairOutcome p k g.now r.old t.old (pair_says result) r.new t.new }
{
    test_arguments(p, k, g, r.len(), t.len())?;
    let request = Request {
        field: Field { modulus: p },
        k: k as usize,
        g,
    };
    request.write_fraction(r, t)
}
