// The text job: a plain text with the numbers of a job, for people.
#![tactic(auto)]

ghost use Rattle.std.specs.Prelude.{◌≡◌, ◌≤◌, ◌++◌, length, drop};
ghost use Rattle.report.specs.Appended.{RoomFor, Appended};
ghost use Rattle.field.specs.ModulusTest.{is_modulus};
ghost use Rattle.tokens.specs.Taking.{IsPosition};
ghost use Rattle.jobtext.specs.Job.{job_of_text, from_type, slip_of, is_count, is_below};
ghost use Rattle.jobtext.specs.Message.{moduli_words, slip_words, message};
ghost use Rattle.jobtext.specs.Reading.{ahead, fault_at, Takes, Passes, Fills, Ends, Follows};

use field::Field;
use report::Writer;
use sizes::JobSizes;
use tokens::{End, NumeralError, Position};

// What is wrong with a text job. The last five are the refusals 1, 2, 3, 5 and 6 of document 01.
#[derive(Clone, Copy, Debug, PartialEq, Eq)]
pub enum Slip {
    NotNumber,
    TooLarge,
    EndsEarly,
    TooMany,
    Modulus,
    Count,
    Order,
    Entry,
    Coefficient,
}

// What is wrong, and on which line.
#[derive(Clone, Copy, Debug, PartialEq, Eq)]
pub struct Fault {
    pub slip: Slip,
    pub line: usize,
}

// As in crate request, whose slips are others: each error has a `From` of its own.
impl From<NumeralError> for Slip {
    ghost from_gives = { λ e slip. slip ≡ slip_of e };

    fn from(e: NumeralError) -> Slip {
        match e {
            NumeralError::NotNumber => Slip::NotNumber,
            NumeralError::TooLarge => Slip::TooLarge,
        }
    }
}

impl From<End> for Fault {
    ghost use Rattle.jobtext.specs.declared.Slip.{Slip};

    ghost from_gives = { λ end fault. fault ≡ fault_at Slip.EndsEarly end.line };

    fn from(end: End) -> Fault {
        Fault {
            slip: Slip::EndsEarly,
            line: end.line,
        }
    }
}

// A text, and how far it is read.
#[derive(Drop)]
struct Reader<'a> {
    text: &'a [u8],
    here: Position,
    ghost inside: { IsPosition text.now here },
}

impl Reader<'_> {
    ghost use Rattle.jobtext.specs.declared.Slip.{Slip};

    // What is wrong with the number that was read last.
    fn fault(&self, slip: Slip) -> Fault
        ensures { result ≡ fault_at slip self.now.here.line }
    {
        Fault {
            slip,
            line: self.here.line,
        }
    }

    fn number(&mut self) -> Result<u32, Fault>
        ensures { Takes (ahead self.old.text.now self.old.here) result self.new.here.line (ahead self.new.text.now self.new.here) }
    {
        let word = tokens::take_word(self.text, self.here)?;
        self.here = Position {
            at: word.to,
            line: word.line,
        };
        tokens::read_numeral(&self.text[word.from..word.to]).map_err(|e| Fault {
            slip: e.into(),
            line: word.line,
        })
    }

    fn modulus(&mut self) -> Result<u32, Fault>
        ensures { Passes is_modulus Slip.Modulus (ahead self.old.text.now self.old.here) result (ahead self.new.text.now self.new.here) }
    {
        let p = self.number()?;
        if Field::admits(p) {
            Ok(p)
        } else {
            Err(self.fault(Slip::Modulus))
        }
    }

    fn count(&mut self) -> Result<u32, Fault>
        ensures { Passes is_count Slip.Count (ahead self.old.text.now self.old.here) result (ahead self.new.text.now self.new.here) }
    {
        let n = self.number()?;
        if (1..=8).contains(&n) {
            Ok(n)
        } else {
            Err(self.fault(Slip::Count))
        }
    }

    fn below(&mut self, limit: u32, slip: Slip) -> Result<u32, Fault>
        ensures { Passes (is_below limit) slip (ahead self.old.text.now self.old.here) result (ahead self.new.text.now self.new.here) }
    {
        let value = self.number()?;
        if value < limit {
            Ok(value)
        } else {
            Err(self.fault(slip))
        }
    }

    // As many numbers as out has places, each below the limit. It stays a function in the compiled code, since its loop takes a third more time
    // where it is inlined.
    #[inline(never)]
    fn numbers(&mut self, limit: u32, slip: Slip, out: &mut [u32]) -> Result<(), Fault>
        ensures { Fills (is_below limit) slip (ahead self.old.text.now self.old.here) out.new result (ahead self.new.text.now self.new.here) }
    {
        for value in out.iter_mut() {
            *value = self.below(limit, slip)?;
        }
        Ok(())
    }

    // Nothing more.
    fn end(&self) -> Result<(), Fault>
        ensures { Ends (ahead self.now.text.now self.now.here) result }
    {
        match tokens::take_word(self.text, self.here) {
            Ok(word) => Err(Fault {
                slip: Slip::TooMany,
                line: word.line,
            }),
            Err(_) => Ok(()),
        }
    }

    // What stands behind the sizes, which are answered again. The type and the series are kept apart until the text is known to be right, in
    // arrays of the largest size, since there is no heap. They have a function of their own, so that they are cleared once, and not for a text
    // whose sizes are wrong.
    fn type_and_series(
        &mut self,
        sizes: JobSizes,
        types: &mut [u32; 8],
        series: &mut [u32; 2040],
    ) -> Result<JobSizes, Fault>
        requires { (sizes.n ≤ 8) × (sizes.s ≤ 255) }
        ensures { Follows (from_type sizes.p sizes.n sizes.s (ahead self.old.text.now self.old.here)) result types.old types.new series.old series.new }
    {
        let mut d = [0u32; 8];
        let mut f = [0u32; 2040];
        let entries = sizes.n as usize;
        let coefficients = entries * sizes.s as usize;
        self.numbers(256, Slip::Entry, &mut d[..entries])?;
        self.numbers(sizes.p, Slip::Coefficient, &mut f[..coefficients])?;
        self.end()?;
        types[..entries].copy_from_slice(&d[..entries]);
        series[..coefficients].copy_from_slice(&f[..coefficients]);
        Ok(sizes)
    }
}

// The job of a text: p, n and s are answered, the type and the series written to the lent buffers; or what is wrong and on which line, and nothing is written.
pub fn parse(text: &[u8], types: &mut [u32; 8], series: &mut [u32; 2040]) -> Result<JobSizes, Fault>
    ensures { Follows (job_of_text text.now) result types.old types.new series.old series.new }
{
    let mut reader = Reader {
        text,
        here: Position { at: 0, line: 1 },
    };
    let p = reader.modulus()?;
    let n = reader.count()?;
    let s = reader.below(256, Slip::Order)?;
    reader.type_and_series(JobSizes { p, n, s }, types, series)
}

// The words of a message, put and not displayed, since each byte is promised. Which moduli are admitted.
#[tactic(auto, unfolding(crate::specs::Message::moduli_words))]
fn put_moduli(text: &mut Writer<'_>)
    requires { RoomFor moduli_words text.old }
    ensures { Appended moduli_words text.old text.new }
{
    text.put(b"the modulus p must be a prime from 2 to");
    text.put_number(Field::LARGEST as u64);
}

#[tactic(auto, unfolding(crate::specs::Message::slip_words))]
fn put_words(text: &mut Writer<'_>, slip: Slip)
    requires { RoomFor (slip_words slip) text.old }
    ensures { Appended (slip_words slip) text.old text.new }
{
    match slip {
        Slip::NotNumber => text.put(b"this word is no number"),
        Slip::TooLarge => text.put(b"this number does not fit 32 bits"),
        Slip::EndsEarly => text.put(b"the text ends too early"),
        Slip::TooMany => text.put(b"there are more numbers than the job has"),
        Slip::Modulus => put_moduli(text),
        Slip::Count => text.put(b"the number of series n must be from 1 to 8"),
        Slip::Order => text.put(b"the order s must be from 0 to 255"),
        Slip::Entry => text.put(b"a type entry must be from 0 to 255"),
        Slip::Coefficient => text.put(b"a coefficient must be below p"),
    }
}

fn put_message(text: &mut Writer<'_>, slip: Slip, line: usize)
    requires { RoomFor (message slip line) text.old }
    ensures { Appended (message slip line) text.old text.new }
{
    text.put(b"line");
    text.put_number(line as u64);
    text.put(b": ");
    put_words(text, slip);
    text.put(b"\n");
}

// What is wrong, as one line: the line's number, and words. Answers its length.
pub fn write_message(fault: Fault, out: &mut [u8; 128]) -> usize
    ensures { (result ≡ length (message fault.slip fault.line)) × (out.new ≡ message fault.slip fault.line ++ drop (length (message fault.slip fault.line)) out.old) }
{
    let Fault { slip, line } = fault;
    let mut text = Writer { out, at: 0 };
    put_message(&mut text, slip, line);
    text.at
}
