// The public operations: a file and a lent buffer in, the answer in the buffer out; and the two questions, a file in, a value out.
#![tactic(auto)]

mod export;
mod first_question;
mod second_question;

ghost use Rattle.std.specs.Prelude.{◌≡◌};
ghost use Rattle.paper.specs.Computed.{verdict_of};
ghost use Rattle.verdicts.specs.Said.{said_of_file};
ghost use Rattle.checker.specs.Gave.{Answers};

pub use export::{mergecheck, mergecheck_closure, mergecheck_sharing};
pub use first_question::sharing;
pub use second_question::closure;
use verdicts::{Reason, Refusal, Verdict};

// The reason of a refusal, where there is one, and the length of the answer.
#[derive(Clone, Copy)]
pub struct Answered {
    pub reason: Option<Reason>,
    pub length: usize,
}

// The verdict on a file, or the refusal with its line.
#[tactic(auto, using(crate::proofs::FromReading::judged), unfolding(verdicts::specs::Said::said_of_file))]
fn judge_file(file: &[u8]) -> Result<Verdict, Refusal>
    ensures { said_of_file result ≡ verdict_of file.now }
{
    let read = certificate::read(file)?;
    Ok(judge::judge(&read))
}

// Judges the file and writes the answer to the start of the buffer. Nothing is asked of the caller.
pub fn check(file: &[u8], out: &mut [u8]) -> Answered
    ensures { Answers file.now out.old result out.new }
{
    if out.len() < 128 {
        return Answered {
            reason: Some(Reason::ShortBuffer),
            length: 0,
        };
    }
    let v = judge_file(file);
    let reason = verdicts::reason_of(v);
    let length = answer::write(v, out);
    Answered { reason, length }
}
