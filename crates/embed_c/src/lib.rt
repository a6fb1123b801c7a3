// The exports for C: each is the function of crate embed of its name, with the same clauses.
#![tactic(auto)]

ghost use Rattle.std.specs.Prelude.{◌≡◌};
ghost use Rattle.field.specs.Calls.{MakeOutcome, AddOutcome, MultiplyOutcome, InvertOutcome};
ghost use Rattle.engine.specs.Basis.{BasisOutcome};
ghost use Rattle.engine.specs.Approximant.{ApproximantOutcome};
ghost use Rattle.sets.specs.Bases.{BasesOutcome};
ghost use Rattle.pade.specs.Pair.{PairOutcome};
ghost use Rattle.jobfile.specs.Outcomes.{ReadOutcome, WriteOutcome};
ghost use Rattle.jobtext.specs.Job.{job_of_text};
ghost use Rattle.jobreport.specs.Printed.{PrintOutcome};
ghost use Rattle.report.specs.Calls.{BasisTextOutcome, RefusalTextOutcome};
ghost use Rattle.embed.specs.Parsing.{fault_line, ParseOutcome};
ghost use Rattle.embed.specs.Lengths.{residue_answer_length, count_answer_length, basis_answer_length, row_answer_length, job_answer_length};
ghost use Rattle.embed.specs.Given.{Told, Given};
ghost use Rattle.embed.specs.RowAt.{RowSaid};

use jobfile::{SERIES_WORDS, TYPE_WORDS};

#[unsafe(no_mangle)]
pub extern "C" fn relations_modulus(p: u32) -> u32
    ensures { Told (MakeOutcome p) result }
{
    embed::relations_modulus(p)
}

#[unsafe(no_mangle)]
pub extern "C" fn relations_add(p: u32, a: u32, b: u32, answer: &mut [u32]) -> u32
    ensures { Given residue_answer_length (AddOutcome p a b) Unit answer.old result answer.new }
{
    embed::relations_add(p, a, b, answer)
}

#[unsafe(no_mangle)]
pub extern "C" fn relations_multiply(p: u32, a: u32, b: u32, answer: &mut [u32]) -> u32
    ensures { Given residue_answer_length (MultiplyOutcome p a b) Unit answer.old result answer.new }
{
    embed::relations_multiply(p, a, b, answer)
}

#[unsafe(no_mangle)]
pub extern "C" fn relations_invert(p: u32, a: u32, answer: &mut [u32]) -> u32
    ensures { Given residue_answer_length (InvertOutcome p a) Unit answer.old result answer.new }
{
    embed::relations_invert(p, a, answer)
}

#[unsafe(no_mangle)]
pub extern "C" fn relations_basis(
    p: u32,
    n: u32,
    s: u32,
    d: &[u32],
    series: &[u32],
    basis: &mut [u32],
    answer: &mut [u32],
) -> u32
    ensures { Given basis_answer_length (λ said. BasisOutcome p n s d.now series.now basis.old said basis.new) (basis.new ≡ basis.old) answer.old result answer.new }
{
    embed::relations_basis(p, n, s, d, series, basis, answer)
}

#[unsafe(no_mangle)]
pub extern "C" fn relations_bases(
    p: u32,
    n: u32,
    s: u32,
    sets: u32,
    d: &[u32],
    series: &[u32],
    bases: &mut [u32],
    answers: &mut [u32],
) -> u32
    ensures { Told (λ said. BasesOutcome p n s sets d.now series.now bases.old answers.old said bases.new answers.new) result }
{
    embed::relations_bases(p, n, s, sets, d, series, bases, answers)
}

#[unsafe(no_mangle)]
pub extern "C" fn relations_approximant(
    p: u32,
    n: u32,
    d: &[u32],
    series: &[u32],
    basis: &mut [u32],
    answer: &mut [u32],
) -> u32
    ensures { Given basis_answer_length (λ said. ApproximantOutcome p n d.now series.now basis.old said basis.new) (basis.new ≡ basis.old) answer.old result answer.new }
{
    embed::relations_approximant(p, n, d, series, basis, answer)
}

#[unsafe(no_mangle)]
pub extern "C" fn relations_pair(p: u32, k: u32, g: &[u32], r: &mut [u32], t: &mut [u32]) -> u32
    ensures { Told (λ said. PairOutcome p k g.now r.old t.old said r.new t.new) result }
{
    embed::relations_pair(p, k, g, r, t)
}

#[unsafe(no_mangle)]
pub extern "C" fn relations_row(n: u32, s: u32, i: u32, basis: &[u32], answer: &mut [u32]) -> u32
    ensures { Given row_answer_length (RowSaid basis.now n s i) Unit answer.old result answer.new }
{
    embed::relations_row(n, s, i, basis, answer)
}

#[unsafe(no_mangle)]
pub extern "C" fn relations_read(
    file: &[u8],
    d: &mut [u32],
    series: &mut [u32],
    answer: &mut [u32],
) -> u32
    ensures { Given job_answer_length (λ said. ReadOutcome file.now d.old series.old said d.new series.new) ((d.new ≡ d.old) × (series.new ≡ series.old)) answer.old result answer.new }
{
    embed::relations_read(file, d, series, answer)
}

#[unsafe(no_mangle)]
pub extern "C" fn relations_write(
    p: u32,
    n: u32,
    s: u32,
    d: &[u32],
    series: &[u32],
    file: &mut [u8],
    answer: &mut [u32],
) -> u32
    ensures { Given count_answer_length (λ said. WriteOutcome p n s d.now series.now file.old said file.new) (file.new ≡ file.old) answer.old result answer.new }
{
    embed::relations_write(p, n, s, d, series, file, answer)
}

#[unsafe(no_mangle)]
pub extern "C" fn relations_text(
    p: u32,
    n: u32,
    s: u32,
    d: &[u32],
    basis: &[u32],
    least: u32,
    text: &mut [u8],
    answer: &mut [u32],
) -> u32
    ensures { Given count_answer_length (BasisTextOutcome p n s d.now basis.now least text.old text.new) (text.new ≡ text.old) answer.old result answer.new }
{
    embed::relations_text(p, n, s, d, basis, least, text, answer)
}

#[unsafe(no_mangle)]
pub extern "C" fn relations_refused(number: u32, text: &mut [u8], answer: &mut [u32]) -> u32
    ensures { Given count_answer_length (RefusalTextOutcome number text.old text.new) (text.new ≡ text.old) answer.old result answer.new }
{
    embed::relations_refused(number, text, answer)
}

#[unsafe(no_mangle)]
pub extern "C" fn relations_print(file: &[u8], text: &mut [u8], answer: &mut [u32]) -> u32
    ensures { Given count_answer_length (PrintOutcome file.now text.old text.new) (text.new ≡ text.old) answer.old result answer.new }
{
    embed::relations_print(file, text, answer)
}

#[unsafe(no_mangle)]
pub extern "C" fn relations_parse(
    text: &[u8],
    d: &mut [u32; TYPE_WORDS],
    series: &mut [u32; SERIES_WORDS],
    answer: &mut [u32],
) -> u32
    ensures { Given job_answer_length (ParseOutcome text.now d.old series.old d.new series.new) ((d.new ≡ d.old) × (series.new ≡ series.old)) answer.old result answer.new }
{
    embed::relations_parse(text, d, series, answer)
}

// The line, counted from 1, of what is wrong with a text job; 0 where nothing is.
#[unsafe(no_mangle)]
pub extern "C" fn relations_parse_line(text: &[u8]) -> usize
    ensures { result ≡ fault_line (job_of_text text.now) }
{
    embed::relations_parse_line(text)
}
