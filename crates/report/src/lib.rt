// The text of a basis: the lines that `relations` prints, written to a lent buffer piece by piece.
#![tactic(auto)]

ghost use Rattle.std.specs.Prelude.{◌≡◌, ◌+◌, ◌*◌, ◌/◌, ◌<◌, ◌≤◌, length, MatchOption};
ghost use Rattle.field.specs.Calls.{Tests};
ghost use Rattle.report.specs.Decimal.{decimal, signed};
ghost use Rattle.report.specs.Entry.{trim, degree};
ghost use Rattle.report.specs.Text.{number, numbers, sizes, heading, entry_text, entries_text, degrees, row_line, row_lines, numbered, basis_text};
ghost use Rattle.report.specs.Appended.{RoomFor, Appended};
ghost use Rattle.report.specs.Calls.{text_says, basis_text_order, BasisTextOutcome, RefusalTextOutcome};

use degree::{Degree, ShiftedDegree};
use field::Refusal;
use sizes::JobSizes;

// Every text fits: 11 bytes for each number, at 8 rows of 8 entries of 256 words.
pub const TEXT: usize = 180_809;

// Appends texts to a lent buffer: the next byte goes to position `at`. Not `Display`, of whose `fmt` no clause says what it writes: each byte
// is promised here.
#[derive(Drop)]
pub struct Writer<'a> {
    pub out: &'a mut [u8],
    pub at: usize,
}

impl Writer<'_> {
    pub fn put(&mut self, text: &[u8])
        requires { RoomFor text.now self.old }
        ensures { Appended text.now self.old self.new }
    {
        let end = self.at + text.len();
        self.out[self.at..end].copy_from_slice(text);
        self.at = end;
    }

    pub fn put_decimal(&mut self, x: u64)
        requires { RoomFor (decimal x) self.old }
        ensures { Appended (decimal x) self.old self.new }
    {
        let mut digits = [0; 20];
        let k = io::decimal(x, &mut digits);
        self.put(&digits[..k]);
    }

    // A space and a number.
    pub fn put_number(&mut self, x: u64)
        requires { RoomFor (number x) self.old }
        ensures { Appended (number x) self.old self.new }
    {
        self.put(b" ");
        self.put_decimal(x);
    }

    // A shifted degree, with a minus sign where it is negative.
    fn put_shifted(&mut self, shifted: ShiftedDegree)
        requires { RoomFor (signed shifted.0) self.old }
        ensures { Appended (signed shifted.0) self.old self.new }
    {
        if shifted.0 < 0 {
            self.put(b"-");
        }
        self.put_decimal(shifted.0.unsigned_abs());
    }

    fn put_numbers(&mut self, words: &[u32])
        requires { RoomFor (numbers words.now) self.old }
        ensures { Appended (numbers words.now) self.old self.new }
    {
        for word in words {
            self.put_number(*word as u64);
        }
    }

    fn put_entry(&mut self, entry: &[u32])
        requires { RoomFor (entry_text entry.now) self.old }
        ensures { Appended (entry_text entry.now) self.old self.new }
    {
        self.put(b" |");
        match last_nonzero(entry) {
            None => self.put_number(0),
            Some(last) => self.put_numbers(&entry[..=last]),
        }
    }

    // The entries of w words that a row is cut into.
    fn put_entries(&mut self, row: &[u32], w: usize)
        requires { (0 < w) × RoomFor (entries_text (length row.now / w) w row.now) self.old }
        ensures { Appended (entries_text (length row.now / w) w row.now) self.old self.new }
    {
        for entry in row.chunks_exact(w) {
            self.put_entry(entry);
        }
    }

    // The start of the line of row i, counted from 0: the line counts from 1.
    fn put_degrees(&mut self, i: usize, pivot: Degree, shifted: ShiftedDegree)
        requires { (i < 8) × RoomFor (degrees pivot.0 shifted.0 i) self.old }
        ensures { Appended (degrees pivot.0 shifted.0 i) self.old self.new }
    {
        self.put(b"row");
        self.put_number(i as u64 + 1);
        self.put_number(pivot.0 as u64);
        self.put(b" ");
        self.put_shifted(shifted);
    }

    fn put_row(&mut self, i: usize, row: &[u32], w: usize, d: u32)
        requires { (i < 8) × (0 < w) × (w ≤ 256) × (i * w + w ≤ length row.now) × RoomFor (row_line (length row.now / w) w d i row.now) self.old }
        ensures { Appended (row_line (length row.now / w) w d i row.now) self.old self.new }
    {
        let pivot = degree_of(words::part_at(row, i, w));
        self.put_degrees(i, pivot, ShiftedDegree::of(pivot, d));
        self.put_entries(row, w);
        self.put(b"\n");
    }

    fn put_rows(&mut self, w: usize, d: &[u32], basis: &[u32])
        requires { (length d.now ≤ 8) × (0 < length d.now) × (0 < w) × (w ≤ 256) × (length basis.now ≡ length d.now * (length d.now * w)) × RoomFor (row_lines (length d.now) w d.now basis.now) self.old }
        ensures { Appended (row_lines (length d.now) w d.now basis.now) self.old self.new }
    {
        let rows = basis.chunks_exact(d.len() * w);
        for (i, (row, entry)) in rows.zip(d).enumerate() {
            self.put_row(i, row, w, *entry);
        }
    }

    fn put_sizes(&mut self, job: JobSizes)
        requires { RoomFor (sizes job.p job.n job.s) self.old }
        ensures { Appended (sizes job.p job.n job.s) self.old self.new }
    {
        self.put(b"relations");
        self.put_number(job.p as u64);
        self.put_number(job.n as u64);
        self.put_number(job.s as u64);
    }

    fn put_heading(&mut self, job: JobSizes, d: &[u32])
        requires { RoomFor (heading job.p job.n job.s d.now) self.old }
        ensures { Appended (heading job.p job.n job.s d.now) self.old self.new }
    {
        self.put_sizes(job);
        self.put(b" type");
        self.put_numbers(d);
        self.put(b"\n");
    }

    fn put_numbered(&mut self, word: &[u8], k: u32)
        requires { RoomFor (numbered word.now k) self.old }
        ensures { Appended (numbered word.now k) self.old self.new }
    {
        self.put(word);
        self.put_number(k as u64);
        self.put(b"\n");
    }

    fn put_basis(&mut self, job: JobSizes, d: &[u32], basis: &[u32], least: u32)
        requires { (0 < job.n) × (job.n ≤ 8) × (job.s ≤ 255) × (length d.now ≡ job.n) × (length basis.now ≡ job.n * (job.n * (job.s + 1))) × RoomFor (basis_text job.p job.n job.s d.now basis.now least) self.old }
        ensures { Appended (basis_text job.p job.n job.s d.now basis.now least) self.old self.new }
    {
        self.put_heading(job, d);
        self.put_rows(job.s as usize + 1, d, basis);
        self.put_numbered(b"least", least);
    }
}

// The place of an entry's last word that is not zero.
fn last_nonzero(entry: &[u32]) -> Option<usize>
    ensures { MatchOption result (length (trim entry.now) ≡ 0) (λ e. (e < length entry.now) × (length (trim entry.now) ≡ e + 1)) }
{
    entry.iter().rposition(|word| *word != 0)
}

fn degree_of(entry: &[u32]) -> Degree
    ensures { result.0 ≡ degree entry.now }
{
    Degree(last_nonzero(entry).unwrap_or(0))
}

// The tests of a call that writes a basis.
fn test_basis(n: u32, s: u32, types: usize, words: usize, bytes: usize) -> Result<(), Refusal>
    ensures { Tests (basis_text_order n s types words bytes) result }
{
    if !(1..=8).contains(&n) {
        return Err(Refusal::Count);
    }
    if s > 255 {
        return Err(Refusal::Order);
    }
    let rows = n as usize;
    if types != rows || words != rows * (rows * (s as usize + 1)) || bytes != TEXT {
        return Err(Refusal::Length);
    }
    Ok(())
}

// The text of a basis: p, n, s, the type, the basis words and the least row's number, from 1. Tried over a JobSizes: of a word in a struct
// that is only handed on the proof does not know that it fits 32 bits.
pub fn write_basis(
    p: u32,
    n: u32,
    s: u32,
    d: &[u32],
    basis: &[u32],
    least: u32,
    out: &mut [u8],
) -> Result<usize, Refusal>
    ensures { BasisTextOutcome p n s d.now basis.now least out.old out.new (text_says result) }
{
    test_basis(n, s, d.len(), basis.len(), out.len())?;
    let mut text = Writer { out, at: 0 };
    text.put_basis(JobSizes { p, n, s }, d, basis, least);
    Ok(text.at)
}

// The text of a refusal. The number comes from C, so it may be any, and stays a u32.
pub fn write_refusal(k: u32, out: &mut [u8]) -> Result<usize, Refusal>
    ensures { RefusalTextOutcome k out.old out.new (text_says result) }
{
    if out.len() != TEXT {
        return Err(Refusal::Length);
    }
    let mut text = Writer { out, at: 0 };
    text.put_numbered(b"refused", k);
    Ok(text.at)
}
