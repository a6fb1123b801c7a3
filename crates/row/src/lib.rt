// Rows of polynomials as words: n entries of equal width, low coefficient first. Loops end at the pivot degrees. What is written is reached by
// its place, here and in crate step: std says nothing of what a loop over mutable parts has left.
#![tactic(auto)]

ghost use Rattle.std.specs.Prelude.{◌≡◌, ℕ, min, ◌+◌, ◌*◌, ◌-◌, ◌%◌, ◌<◌, ◌≤◌, length};
ghost use Rattle.field.specs.Gathered.{Room, Gathers};
ghost use Rattle.field.specs.Fixed.{Fixed};
ghost use Rattle.relation.specs.Product.{conv, dot};
ghost use Rattle.relation.specs.Operations.{add_multiple, times_x, unit};
ghost use Rattle.words.specs.Polynomial.{poly};
ghost use Rattle.row.specs.View.{vector, degree_at};
ghost use Rattle.row.specs.Shape.{EndsAt, RowEndsAt, Residues, TopsBelow};

use degree::Degree;
use field::{Field, FixedFactor, Halves};

// The end of e's group of four words, or the limit where that comes first. Above its degree an entry has zeros, so loops may end there, and their vector code has no rest.
fn group_end(e: usize, limit: usize) -> usize
    requires { e < limit }
    ensures { (e < result) × (result ≤ limit) }
{
    if limit - e > 3 { e / 4 * 4 + 4 } else { limit }
}

// The sum, with the products of the coefficient of X^at in entry * series, and no remainder. The entry ends at its degree, and no coefficient of the series past X^at counts.
fn plus_entry_product(sum: Halves, entry: &[u32], series: &[u32], top: Degree, at: usize) -> Halves
    requires { Room (at + 1) sum × (at < length entry.now) × (at < length series.now) × EndsAt (poly entry.now) top.0 }
    ensures { Gathers (at + 1) sum (conv (poly entry.now) (poly series.now) at) result }
{
    let end = group_end(top.0.min(at), at + 1);
    let mut sum = sum;
    for (t, x) in entry[..end].iter().enumerate() {
        sum = sum.plus_product(*x, series[at - t]);
    }
    sum
}

// m times an entry is added to another; it ends at its degree.
fn add_multiple(f: Field, entry: &mut [u32], from: &[u32], m: FixedFactor, top: Degree)
    requires { Fixed f.modulus m × (top.0 < length entry.old) × (length from.now ≡ length entry.old) × ((t : ℕ) → poly entry.old t < f.modulus) × EndsAt (poly from.now) top.0 }
    ensures { (length entry.new ≡ length entry.old)
        × ((t : ℕ) → poly entry.new t ≡ (poly entry.old t + m.factor * poly from.now t) % f.modulus) }
{
    let end = group_end(top.0, entry.len());
    for (t, y) in from[..end].iter().enumerate() {
        entry[t] = f.plus_multiple(entry[t], m, *y);
    }
}

// X times an entry whose last place is free.
fn times_x(entry: &[u32], into: &mut [u32])
    requires { (0 < length entry.now) × (length into.old ≡ length entry.now) × (poly entry.now (length entry.now - 1) ≡ 0) }
    ensures { (length into.new ≡ length into.old) × ((t : ℕ) → poly into.new t ≡ times_x (λ _. poly entry.now) 0 t) }
{
    into[0] = 0;
    into[1..].copy_from_slice(&entry[..entry.len() - 1]);
}

// What a row is like: n entries of so many words, each of which ends at its pivot degree. tops has eight places, as memory is fixed. That the
// degrees lie below the width is asked where it is needed, since `row_product` takes any; so are the lengths of rows, since a struct that held
// the row would lend its parts at each turn, which is no plainer.
#[derive(Clone, Copy)]
pub struct Shape {
    pub n: usize,
    pub width: usize,
    pub tops: [Degree; 8],
    pub ghost few: { n ≤ 8 },
}

impl Shape {
    // The coefficient of X^at in the sum of the products of a row's entries with the series, each of which has one word less than an entry.
    pub fn row_product(&self, f: Field, row: &[u32], series: &[u32], at: usize) -> u32
        requires sizes { (at + 1 < self.now.width) × (self.now.width ≤ 256) × (length row.now ≡ self.now.n * self.now.width) × (length series.now ≡ self.now.n * (self.now.width - 1)) }
        requires row_ends { RowEndsAt self.now.n (vector self.now.width row.now) (degree_at self.now.tops) }
        ensures { result ≡ dot self.now.n (vector self.now.width row.now) (vector (self.now.width - 1) series.now) at % f.modulus }
    {
        let mut sum = Halves { low: 0, high: 0 };
        for (k, top) in self.tops[..self.n].iter().enumerate() {
            sum = plus_entry_product(
                sum,
                words::part_at(row, k, self.width),
                words::part_at(series, k, self.width - 1),
                *top,
                at,
            );
        }
        f.sum_of(sum)
    }

    // m times a row is added to another, entry by entry.
    fn add_entries(&self, f: Field, row: &mut [u32], from: &[u32], m: FixedFactor)
        requires sizes { Fixed f.modulus m × (length row.old ≡ self.now.n * self.now.width) × (length from.now ≡ self.now.n * self.now.width) }
        requires tops_below { TopsBelow self.now.n self.now.width self.now.tops }
        requires residues { Residues f.modulus (vector self.now.width row.old) }
        requires row_ends { RowEndsAt self.now.n (vector self.now.width from.now) (degree_at self.now.tops) }
        ensures { (length row.new ≡ length row.old)
            × (vector self.now.width row.new ≡ add_multiple f.modulus m.factor (vector self.now.width from.now) (vector self.now.width row.old)) }
    {
        for (k, top) in self.tops[..self.n].iter().enumerate() {
            let start = k * self.width;
            let end = start + self.width;
            add_multiple(f, &mut row[start..end], &from[start..end], m, *top);
        }
    }

    // c times a row is added to another. A multiple of p adds nothing, and is skipped.
    pub fn add_row_multiple(&self, f: Field, row: &mut [u32], from: &[u32], c: u32)
        requires sizes { (length row.old ≡ self.now.n * self.now.width) × (length from.now ≡ self.now.n * self.now.width) }
        requires tops_below { TopsBelow self.now.n self.now.width self.now.tops }
        requires residues { Residues f.modulus (vector self.now.width row.old) }
        requires row_ends { RowEndsAt self.now.n (vector self.now.width from.now) (degree_at self.now.tops) }
        ensures { (length row.new ≡ length row.old)
            × (vector self.now.width row.new ≡ add_multiple f.modulus c (vector self.now.width from.now) (vector self.now.width row.old)) }
    {
        let a = c % f.modulus;
        if a != 0 {
            self.add_entries(f, row, from, f.fixed(a));
        }
    }

    // X times a row whose entries' last places are free.
    pub fn row_times_x(&self, row: &[u32], into: &mut [u32])
        requires sizes { (0 < self.now.width) × (length row.now ≡ self.now.n * self.now.width) × (length into.old ≡ self.now.n * self.now.width) }
        requires room { (k : ℕ) → k < self.now.n → vector self.now.width row.now k (self.now.width - 1) ≡ 0 }
        ensures { (length into.new ≡ length into.old) × (vector self.now.width into.new ≡ times_x (vector self.now.width row.now)) }
    {
        for k in 0..self.n {
            let start = k * self.width;
            let end = start + self.width;
            times_x(&row[start..end], &mut into[start..end]);
        }
    }

    // Row i of the identity: the basis of V_0, which is everything.
    pub fn unit_row(&self, row: &mut [u32], i: usize)
        requires { (i < self.now.n) × (0 < self.now.width) × (length row.old ≡ self.now.n * self.now.width) }
        ensures { (length row.new ≡ length row.old) × (vector self.now.width row.new ≡ unit i) }
    {
        row.fill(0);
        row[i * self.width] = 1;
    }
}
