// The calls, one function each: what is lent, the call, and what it left. What is lent are arrays, since the program has no heap.
use crate::arguments::{Kind, Request};
use crate::fault::{Fault, Stop};
use crate::lend::{FILE, JOB_TEXT, TEXT, WORDS, lend};
use crate::say::{Answer, with_bytes, with_words};
use field::Field;

// Which call it is comes before what is wrong with a word.
pub fn answer(
    out: &impl Print,
    name: &[u8],
    request: Request,
    values: &mut [u32],
) -> Result<(), Stop> {
    match name {
        b"make" => make(out, request, values),
        b"add" => combine(out, request, values, embed::relations_add),
        b"multiply" => combine(out, request, values, embed::relations_multiply),
        b"invert" => invert(out, request, values),
        b"basis" => basis(out, request, values),
        b"approximant" => approximant(out, request, values),
        b"bases" => bases(out, request, values),
        b"pair" => pair(out, request, values),
        b"row" => row(out, request, values),
        b"block_checks" => block_checks(out, request, values),
        b"read" => read(out, request, values),
        b"write" => write(out, request, values),
        b"text" => text(out, request, values),
        b"refused" => refused(out, request, values),
        b"print" => print(out, request, values),
        b"parse" => parse(out, request, values),
        b"parse_line" => parse_line(out, request, values),
        _ => Err(Stop::from(Fault::NoCall)),
    }
}

fn make(out: &impl Print, request: Request, values: &mut [u32]) -> Result<(), Stop> {
    let [p] = request.arguments::<1>(values, &[])?.numbers;
    match Field::make(p) {
        Ok(field) => println!(out; "0 {}", field.modulus)?,
        Err(refusal) => println!(out; "{}", refusal.number())?,
    }
    Ok(())
}

// A call on two residues.
fn combine<F: Fn(u32, u32, u32, &mut [u32]) -> u32>(
    out: &impl Print,
    request: Request,
    values: &mut [u32],
    call: F,
) -> Result<(), Stop>
    requires { F.IsAlwaysCallable call }
{
    let [p, a, b] = request.arguments::<3>(values, &[])?.numbers;
    let mut told = [9; 1];
    let status = call(p, a, b, &mut told);
    println!(out; "{}", Answer(status, &told))?;
    Ok(())
}

fn invert(out: &impl Print, request: Request, values: &mut [u32]) -> Result<(), Stop> {
    let [p, a] = request.arguments::<2>(values, &[])?.numbers;
    let mut told = [9; 1];
    let status = embed::relations_invert(p, a, &mut told);
    println!(out; "{}", Answer(status, &told))?;
    Ok(())
}

fn basis(out: &impl Print, request: Request, values: &mut [u32]) -> Result<(), Stop> {
    let given = request.arguments::<3>(values, &[Kind::Read, Kind::Read, Kind::Written])?;
    let [p, n, s] = given.numbers;
    let mut words = [9; WORDS];
    let words = lend(given.slice(2), &mut words);
    let mut told = [9; 2];
    let (d, series) = (given.slice(0), given.slice(1));
    let status = embed::relations_basis(p, n, s, d, series, words, &mut told);
    with_words(out, Answer(status, &told), words, given.form)?;
    Ok(())
}

fn approximant(out: &impl Print, request: Request, values: &mut [u32]) -> Result<(), Stop> {
    let given = request.arguments::<2>(values, &[Kind::Read, Kind::Read, Kind::Written])?;
    let [p, n] = given.numbers;
    let mut words = [9; WORDS];
    let words = lend(given.slice(2), &mut words);
    let mut told = [9; 2];
    let (d, series) = (given.slice(0), given.slice(1));
    let status = embed::relations_approximant(p, n, d, series, words, &mut told);
    with_words(out, Answer(status, &told), words, given.form)?;
    Ok(())
}

fn bases(out: &impl Print, request: Request, values: &mut [u32]) -> Result<(), Stop> {
    let kinds = [Kind::Read, Kind::Read, Kind::Written, Kind::Written];
    let given = request.arguments::<4>(values, &kinds)?;
    let [p, n, s, sets] = given.numbers;
    let mut bases = [9; WORDS];
    let mut answers = [9; WORDS];
    let bases = lend(given.slice(2), &mut bases);
    let answers = lend(given.slice(3), &mut answers);
    let (d, series) = (given.slice(0), given.slice(1));
    let status = embed::relations_bases(p, n, s, sets, d, series, bases, answers);
    let form = given.form;
    println!(out; "{status}{}{}", form.say(bases), form.say(answers))?;
    Ok(())
}

fn pair(out: &impl Print, request: Request, values: &mut [u32]) -> Result<(), Stop> {
    let given = request.arguments::<2>(values, &[Kind::Read, Kind::Written, Kind::Written])?;
    let [p, k] = given.numbers;
    let mut r = [9; WORDS];
    let mut t = [9; WORDS];
    let r = lend(given.slice(1), &mut r);
    let t = lend(given.slice(2), &mut t);
    let status = embed::relations_pair(p, k, given.slice(0), r, t);
    let form = given.form;
    println!(out; "{status}{}{}", form.say(r), form.say(t))?;
    Ok(())
}

fn row(out: &impl Print, request: Request, values: &mut [u32]) -> Result<(), Stop> {
    let given = request.arguments::<3>(values, &[Kind::Read])?;
    let [n, s, i] = given.numbers;
    let basis = given.slice(0);
    let mut told = [9; 2];
    let status = embed::relations_row(n, s, i, basis, &mut told);
    let words = engine::row_view(basis, n, s, i);
    with_words(out, Answer(status, &told), words, given.form)?;
    Ok(())
}

fn block_checks(out: &impl Print, request: Request, values: &mut [u32]) -> Result<(), Stop> {
    let given = request.arguments::<0>(values, &[Kind::Block])?;
    let mut block = [9u8; 512];
    lend(given.slice(0), &mut block);
    let checks = block::checks_of(&block);
    println!(out; "0 {} {}", checks.a, checks.b)?;
    Ok(())
}

fn read(out: &impl Print, request: Request, values: &mut [u32]) -> Result<(), Stop> {
    let given = request.arguments::<0>(values, &[Kind::File, Kind::Written, Kind::Written])?;
    let mut file = [9u8; FILE];
    let mut d = [9; WORDS];
    let mut series = [9; WORDS];
    let file = lend(given.slice(0), &mut file);
    let d = lend(given.slice(1), &mut d);
    let series = lend(given.slice(2), &mut series);
    let mut told = [9; 3];
    let status = embed::relations_read(file, d, series, &mut told);
    let answer = Answer(status, &told);
    let form = given.form;
    println!(out; "{answer}{}{}", form.say(d), form.say(series))?;
    Ok(())
}

fn write(out: &impl Print, request: Request, values: &mut [u32]) -> Result<(), Stop> {
    let given = request.arguments::<3>(values, &[Kind::Read, Kind::Read, Kind::File])?;
    let [p, n, s] = given.numbers;
    let mut file = [9u8; FILE];
    let file = lend(given.slice(2), &mut file);
    let mut told = [9; 1];
    let (d, series) = (given.slice(0), given.slice(1));
    let status = embed::relations_write(p, n, s, d, series, file, &mut told);
    with_bytes(out, Answer(status, &told), file, given.form)?;
    Ok(())
}

fn text(out: &impl Print, request: Request, values: &mut [u32]) -> Result<(), Stop> {
    let given = request.arguments::<4>(values, &[Kind::Read, Kind::Read, Kind::Text])?;
    let [p, n, s, least] = given.numbers;
    let mut text = [9u8; TEXT];
    let text = lend(given.slice(2), &mut text);
    let mut told = [9; 1];
    let (d, basis) = (given.slice(0), given.slice(1));
    let status = embed::relations_text(p, n, s, d, basis, least, text, &mut told);
    with_bytes(out, Answer(status, &told), text, given.form)?;
    Ok(())
}

fn refused(out: &impl Print, request: Request, values: &mut [u32]) -> Result<(), Stop> {
    let given = request.arguments::<1>(values, &[Kind::Text])?;
    let [number] = given.numbers;
    let mut text = [9u8; TEXT];
    let text = lend(given.slice(0), &mut text);
    let mut told = [9; 1];
    let status = embed::relations_refused(number, text, &mut told);
    with_bytes(out, Answer(status, &told), text, given.form)?;
    Ok(())
}

fn print(out: &impl Print, request: Request, values: &mut [u32]) -> Result<(), Stop> {
    let given = request.arguments::<0>(values, &[Kind::File, Kind::Text])?;
    let mut file = [9u8; FILE];
    let mut text = [9u8; TEXT];
    let file = lend(given.slice(0), &mut file);
    let text = lend(given.slice(1), &mut text);
    let mut told = [9; 1];
    let status = embed::relations_print(file, text, &mut told);
    with_bytes(out, Answer(status, &told), text, given.form)?;
    Ok(())
}

fn parse(out: &impl Print, request: Request, values: &mut [u32]) -> Result<(), Stop> {
    let given = request.arguments::<0>(values, &[Kind::JobText, Kind::Type, Kind::Series])?;
    let mut text = [9u8; JOB_TEXT];
    let text = lend(given.slice(0), &mut text);
    let mut d = [9; 8];
    let mut series = [9; 2040];
    lend(given.slice(1), &mut d);
    lend(given.slice(2), &mut series);
    let mut told = [9; 3];
    let status = embed::relations_parse(text, &mut d, &mut series, &mut told);
    let answer = Answer(status, &told);
    let form = given.form;
    println!(out; "{answer}{}{}", form.say(&d), form.say(&series))?;
    Ok(())
}

fn parse_line(out: &impl Print, request: Request, values: &mut [u32]) -> Result<(), Stop> {
    let given = request.arguments::<0>(values, &[Kind::JobText])?;
    let mut text = [9u8; JOB_TEXT];
    let text = lend(given.slice(0), &mut text);
    println!(out; "0 {}", embed::relations_parse_line(text))?;
    Ok(())
}
