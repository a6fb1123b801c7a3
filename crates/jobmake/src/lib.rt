// The job file of a text job: parse the text and lay its job out, or say what is wrong with the text.
#![tactic(auto)]

ghost use Rattle.std.specs.Prelude.{◌≡◌, length};
ghost use Rattle.jobfile.specs.Job.{Admitted, lent_job};
ghost use Rattle.jobfile.specs.Layout.{layout};
ghost use Rattle.words.specs.Lent.{over};
ghost use Rattle.jobtext.specs.Job.{job_of_text};
ghost use Rattle.jobmake.specs.MadeOf.{MadeOf};

use jobfile::{FILE_BYTES, SERIES_WORDS, TYPE_WORDS};
use sizes::Job;

// Every message fits.
pub const MESSAGE_BYTES: usize = 128;

// A message in place of the file: how many bytes it takes.
#[derive(Clone, Copy, Debug, PartialEq, Eq)]
pub struct Message {
    pub length: usize,
}

// The file of an admitted job, which the writer does not refuse.
fn lay_out(job: Job<'_>, file: &mut [u8; FILE_BYTES]) -> usize
    requires { Admitted (lent_job job) }
    ensures { (result ≡ length (layout (lent_job job.entry))) × (file.new ≡ over (layout (lent_job job.entry)) file.old) }
{
    jobfile::write_job(job, file).unwrap() as usize * 512
}

// The text's job file, written to the first buffer, whose length is answered; or the message, written to the second.
pub fn make_file(
    text: &[u8],
    file: &mut [u8; FILE_BYTES],
    message: &mut [u8; MESSAGE_BYTES],
) -> Result<usize, Message>
    ensures { MadeOf (job_of_text text.now) result file.old file.new message.old message.new }
{
    let mut d = [0u32; TYPE_WORDS];
    let mut series = [0u32; SERIES_WORDS];
    match jobtext::parse(text, &mut d, &mut series) {
        Ok(sizes) => {
            let entries = sizes.n as usize;
            let coefficients = entries * sizes.s as usize;
            let job = Job {
                sizes,
                d: &d[..entries],
                series: &series[..coefficients],
            };
            Ok(lay_out(job, file))
        }
        Err(fault) => {
            let length = jobtext::write_message(fault, message);
            Err(Message { length })
        }
    }
}
