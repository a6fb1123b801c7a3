// From the reduced minimal basis of V_j to that of V_(j+1): document 000, Theorem 6, with the basis kept reduced at every order.
#![tactic(auto)]

ghost use Rattle.std.specs.Prelude.{◌≡◌, ◌≢◌, ℕ, ◌+◌, ◌*◌, ◌-◌, ◌%◌, ◌<◌, ◌≤◌, length, get_or, IfSome};
ghost use Rattle.field.specs.Prime.{Prime};
ghost use Rattle.relation.specs.Product.{dot};
ghost use Rattle.relation.specs.Operations.{add_multiple, add_multiples, unit};
ghost use Rattle.relation.specs.ReducedBasis.{ReducedBasis};
ghost use Rattle.row.specs.View.{vector, row as row_of, degree_at};
ghost use Rattle.row.specs.Shape.{RowEndsAt, Residues, TopsBelow};
ghost use Rattle.step.specs.Offset.{offset_of, row_weight, TypeWords, TopsWithin, TopsEndAt};
ghost use Rattle.step.specs.Search.{LeastAmong, Nearer};
ghost use Rattle.step.specs.Factor.{factor, column_factor, BasisShape, Moved};
ghost use Rattle.step.specs.Prime.{Prime-prop};

use degree::{Degree, ShiftedDegree};
use field::Field;
use row::Shape;

// What a basis is asked for: n series to order s, of the type that the words d say. The series lie end to end, s words each.
#[derive(Clone, Copy)]
pub struct Problem<'a> {
    pub field: Field,
    pub n: usize,
    pub s: usize,
    pub d: &'a [u32],
    pub series: &'a [u32],
    pub ghost prime: { Prime field.modulus } by { Prime-prop field.modulus },
    pub ghost few: { n ≤ 8 },
    pub ghost short: { s ≤ 255 },
    pub ghost types: { TypeWords n d.now },
    pub ghost full: { length series.now ≡ n * s },
}

// What clears the other rows by row i: the coefficients of all rows, and h, minus the inverse of row i's.
#[derive(Clone, Copy)]
struct Clearing {
    c: [u32; 8],
    h: u32,
    i: usize,
}

// The nearer of two rows: a lower shifted degree, and on a tie the row that was there.
fn nearer(best: Option<usize>, l: usize, tops: [Degree; 8], d: &[u32]) -> usize
    requires { (length d.now ≤ 8) × (l < length d.now) × IfSome best (λ k. k < length d.now) × TypeWords (length d.now) d.now × TopsWithin (length d.now) 255 tops }
    ensures { Nearer (λ k. degree_at tops k + offset_of d.now k) best l result }
{
    let Some(best) = best else {
        return l;
    };
    let old = ShiftedDegree::of(tops[best], d[best]);
    let new = ShiftedDegree::of(tops[l], d[l]);
    if new < old { l } else { best }
}

// The row of least shifted degree, then of least type, among those whose flag is not 0.
pub fn least_row(flags: [u32; 8], tops: [Degree; 8], d: &[u32]) -> Option<usize>
    requires { (length d.now ≤ 8) × TypeWords (length d.now) d.now × TopsWithin (length d.now) 255 tops }
    ensures { LeastAmong (length d.now) (λ l. get_or flags l 0) (row_weight (length d.now) d.now tops) result }
{
    let mut best = None;
    for (l, flag) in flags[..d.len()].iter().enumerate() {
        if *flag != 0 {
            best = Some(nearer(best, l, tops, d));
        }
    }
    best
}

// The coefficient of X^at in each row's sum of products with the series.
fn coefficients(f: Field, basis: &[u32], series: &[u32], shape: &Shape, at: usize) -> [u32; 8]
    requires sizes { (at + 1 < shape.now.width) × (shape.now.width ≤ 256) × (length basis.now ≡ shape.now.n * (shape.now.n * shape.now.width)) × (length series.now ≡ shape.now.n * (shape.now.width - 1)) }
    requires rows_end { (l : ℕ) → l < shape.now.n → RowEndsAt shape.now.n (row_of shape.now.n shape.now.width basis.now l) (degree_at shape.now.tops) }
    ensures { ((l : ℕ) → l < shape.now.n → get_or result l 0 ≡ dot shape.now.n (row_of shape.now.n shape.now.width basis.now l) (vector (shape.now.width - 1) series.now) at % f.modulus)
        × ((l : ℕ) → shape.now.n ≤ l → get_or result l 0 ≡ 0) }
{
    let size = shape.n * shape.width;
    // A place for each of at most eight rows, as memory is fixed.
    let mut c = [0u32; 8];
    for l in 0..shape.n {
        c[l] = shape.row_product(f, words::part_at(basis, l, size), series, at);
    }
    c
}

// Every row but i has its coefficient cleared by a multiple of the pivot row; row i stays.
fn clear_rows(f: Field, basis: &mut [u32], pivot: &[u32], by: &Clearing, shape: &Shape)
    requires sizes { (by.now.i < shape.now.n) × (length basis.old ≡ shape.now.n * (shape.now.n * shape.now.width)) × (length pivot.now ≡ shape.now.n * shape.now.width) }
    requires tops_below { TopsBelow shape.now.n shape.now.width shape.now.tops }
    requires residues { (l : ℕ) → l < shape.now.n → Residues f.modulus (row_of shape.now.n shape.now.width basis.old l) }
    requires pivot_ends { RowEndsAt shape.now.n (vector shape.now.width pivot.now) (degree_at shape.now.tops) }
    ensures { (length basis.new ≡ length basis.old)
        × ((l : ℕ) → l < shape.now.n → l ≢ by.now.i → row_of shape.now.n shape.now.width basis.new l
        ≡ add_multiple f.modulus (factor f.modulus by.now.h (λ k. get_or by.now.c k 0) l) (vector shape.now.width pivot.now) (row_of shape.now.n shape.now.width basis.old l))
        × (row_of shape.now.n shape.now.width basis.new by.now.i ≡ row_of shape.now.n shape.now.width basis.old by.now.i) }
{
    let size = shape.n * shape.width;
    for l in 0..shape.n {
        if l != by.i {
            let m = f.plus_product(0, by.c[l], by.h);
            shape.add_row_multiple(f, &mut basis[l * size..l * size + size], pivot, m);
        }
    }
}

// Every column but i of X times the pivot row is cleared by a multiple of the row of that type.
fn clear_columns(f: Field, moved: &mut [u32], basis: &[u32], i: usize, shape: &Shape)
    requires sizes { (length basis.now ≡ shape.now.n * (shape.now.n * shape.now.width)) × (length moved.old ≡ shape.now.n * shape.now.width) }
    requires tops_below { TopsBelow shape.now.n shape.now.width shape.now.tops }
    requires residues { Residues f.modulus (vector shape.now.width moved.old) }
    requires rows_end { (l : ℕ) → l < shape.now.n → l ≢ i → RowEndsAt shape.now.n (row_of shape.now.n shape.now.width basis.now l) (degree_at shape.now.tops) }
    requires columns_clear { (l k : ℕ) → l < shape.now.n → k < shape.now.n → l ≢ i → k ≢ i → l ≢ k → row_of shape.now.n shape.now.width basis.now l k (degree_at shape.now.tops k) ≡ 0 }
    ensures { (length moved.new ≡ length moved.old)
        × (vector shape.now.width moved.new
        ≡ add_multiples f.modulus shape.now.n (column_factor f.modulus i (degree_at shape.now.tops) (vector shape.now.width moved.old)) (row_of shape.now.n shape.now.width basis.now) (vector shape.now.width moved.old)) }
{
    let size = shape.n * shape.width;
    for k in 0..shape.n {
        if k != i {
            let a = f.modulus - moved[k * shape.width + shape.tops[k].0];
            shape.add_row_multiple(f, moved, words::part_at(basis, k, size), a);
        }
    }
}

// The rows of the next order, where row i moves: every other row is cleared by row i, and X times row i by them. pivot is row i, moved a working row.
fn move_by(
    f: Field,
    basis: &mut [u32],
    pivot: &[u32],
    moved: &mut [u32],
    by: &Clearing,
    shape: &Shape,
)
    requires sizes { (by.now.i < shape.now.n) × (length basis.old ≡ shape.now.n * (shape.now.n * shape.now.width)) × (length pivot.now ≡ shape.now.n * shape.now.width) × (length moved.old ≡ shape.now.n * shape.now.width) }
    requires tops_below { (k : ℕ) → k < shape.now.n → degree_at shape.now.tops k + 1 < shape.now.width }
    requires shape { BasisShape f.modulus shape.now.n (row_of shape.now.n shape.now.width basis.old) (degree_at shape.now.tops) }
    requires pivot { vector shape.now.width pivot.now ≡ row_of shape.now.n shape.now.width basis.old by.now.i }
    ensures { (length basis.new ≡ length basis.old)
        × Moved f.modulus shape.now.n (factor f.modulus by.now.h (λ k. get_or by.now.c k 0)) (degree_at shape.now.tops) by.now.i (row_of shape.now.n shape.now.width basis.old) (row_of shape.now.n shape.now.width basis.new) }
{
    clear_rows(f, basis, pivot, by, shape);
    shape.row_times_x(pivot, moved);
    clear_columns(f, moved, basis, by.i, shape);
    let size = shape.n * shape.width;
    basis[by.i * size..by.i * size + size].copy_from_slice(moved);
}

// The same, where both are working rows.
fn move_row(
    f: Field,
    basis: &mut [u32],
    pivot: &mut [u32],
    moved: &mut [u32],
    by: &Clearing,
    shape: &Shape,
)
    requires sizes { (by.now.i < shape.now.n) × (length basis.old ≡ shape.now.n * (shape.now.n * shape.now.width)) × (length pivot.old ≡ shape.now.n * shape.now.width) × (length moved.old ≡ shape.now.n * shape.now.width) }
    requires tops_below { (k : ℕ) → k < shape.now.n → degree_at shape.now.tops k + 1 < shape.now.width }
    requires shape { BasisShape f.modulus shape.now.n (row_of shape.now.n shape.now.width basis.old) (degree_at shape.now.tops) }
    ensures { (length basis.new ≡ length basis.old)
        × Moved f.modulus shape.now.n (factor f.modulus by.now.h (λ k. get_or by.now.c k 0)) (degree_at shape.now.tops) by.now.i (row_of shape.now.n shape.now.width basis.old) (row_of shape.now.n shape.now.width basis.new) }
{
    pivot.copy_from_slice(words::part_at(basis, by.i, shape.n * shape.width));
    move_by(f, basis, pivot, moved, by, shape);
}

// One order more: the reduced minimal basis of V_(at+1) from that of V_at, with its pivot degrees, in place. pivot and moved are working rows.
fn step(
    problem: Problem<'_>,
    basis: &mut [u32],
    pivot: &mut [u32],
    moved: &mut [u32],
    tops: &mut [Degree; 8],
    at: usize,
)
    requires sizes { (at < problem.s) × (length basis.old ≡ problem.n * (problem.n * (problem.s + 1))) × (length pivot.old ≡ problem.n * (problem.s + 1)) × (length moved.old ≡ problem.n * (problem.s + 1)) }
    requires reduced { ReducedBasis problem.field.modulus problem.n (offset_of problem.d.now) (vector problem.s problem.series.now) at (row_of problem.n (problem.s + 1) basis.old) (degree_at tops.old) }
    ensures { (length basis.new ≡ length basis.old)
        × ReducedBasis problem.entry.field.modulus problem.entry.n (offset_of problem.entry.d.now) (vector problem.entry.s problem.entry.series.now) (at + 1) (row_of problem.entry.n (problem.entry.s + 1) basis.new) (degree_at tops.new)
        × ((l : ℕ) → problem.entry.n ≤ l → degree_at tops.new l ≡ degree_at tops.old l) }
{
    let f = problem.field;
    let shape = Shape {
        n: problem.n,
        width: problem.s + 1,
        tops: *tops,
    };
    let c = coefficients(f, basis, problem.series, &shape, at);
    if let Some(i) = least_row(c, *tops, problem.d) {
        let h = f.modulus - f.inverse(c[i]);
        move_row(f, basis, pivot, moved, &Clearing { c, h, i }, &shape);
        tops[i] = Degree(tops[i].0 + 1);
    }
}

// The identity, the basis of V_0.
fn identity(basis: &mut [u32], shape: &Shape)
    requires { (0 < shape.now.width) × (shape.now.width ≤ 256) × (length basis.old ≡ shape.now.n * (shape.now.n * shape.now.width)) }
    ensures { (length basis.new ≡ length basis.old) × ((l : ℕ) → l < shape.now.n → row_of shape.now.n shape.now.width basis.new l ≡ unit l) }
{
    let size = shape.n * shape.width;
    for i in 0..shape.n {
        shape.unit_row(&mut basis[i * size..i * size + size], i);
    }
}

// The reduced minimal basis of V_s: one step for each order, all with the same two working rows. The answer has the pivot degrees, and 0 past them.
pub fn reduced_basis(problem: Problem<'_>, out: &mut [u32]) -> [Degree; 8]
    requires { length out.old ≡ problem.n * (problem.n * (problem.s + 1)) }
    ensures { (length out.new ≡ length out.old)
        × ReducedBasis problem.entry.field.modulus problem.entry.n (offset_of problem.entry.d.now) (vector problem.entry.s problem.entry.series.now) problem.entry.s (row_of problem.entry.n (problem.entry.s + 1) out.new) (degree_at result)
        × TopsEndAt problem.entry.n result }
{
    let size = problem.n * (problem.s + 1);
    // The largest rows there can be, as memory is fixed.
    let mut pivot = [0u32; 2048];
    let mut moved = [0u32; 2048];
    let mut tops = [Degree(0); 8];
    let shape = Shape {
        n: problem.n,
        width: problem.s + 1,
        tops,
    };
    identity(out, &shape);
    for at in 0..problem.s {
        step(
            problem,
            out,
            &mut pivot[..size],
            &mut moved[..size],
            &mut tops,
            at,
        );
    }
    tops
}
