// The answers as a program lends them on: each length comes with what `&out[..k]` asks.
#![tactic(auto)]

ghost use Rattle.std.specs.Prelude.{◌≡◌, ◌<◌, length, take, IfOk};
ghost use Rattle.std.specs.Io.{ReadsAtMost};
ghost use Rattle.std.specs.Io.KnownBytes.{Consumes, IsAtEnd};
ghost use Rattle.paper.specs.Computed.{sharing_of, closure_of};
ghost use Rattle.paper.specs.Answer.{answer_of, sharing_answer, closure_answer};
ghost use Rattle.reply.specs.Placed.{answer_to, asked_by, Placed};

use std::io::{self, Read};

// What a program may ask: the first question, the second, or the whole verdict.
#[derive(Clone, Copy)]
pub enum Question {
    Sharing,
    Closure,
    Verdict,
}

// `s` names the first question, `c` the second, any other byte the whole verdict.
impl From<u8> for Question {
    ghost from_gives = { λ letter q. q ≡ asked_by letter };

    #[tactic(auto, unfolding(crate::specs::Placed::asked_by))]
    fn from(letter: u8) -> Question {
        match letter {
            b's' => Question::Sharing,
            b'c' => Question::Closure,
            _ => Question::Verdict,
        }
    }
}

// Judges the file, and gives the length of the answer that then stands in the buffer.
pub fn reply(file: &[u8], out: &mut [u8]) -> usize
    ensures { Placed (answer_of file.now) out.old result out.new }
{
    checker::check(file, out).length
}

// Asks the first question.
pub fn reply_sharing(file: &[u8], out: &mut [u8]) -> usize
    ensures { Placed (sharing_answer (sharing_of file.now)) out.old result out.new }
{
    if out.len() < 128 {
        return 0;
    }
    answer::write_sharing(checker::sharing(file), out)
}

// Asks the second.
pub fn reply_closure(file: &[u8], out: &mut [u8]) -> usize
    ensures { Placed (closure_answer (closure_of file.now)) out.old result out.new }
{
    if out.len() < 128 {
        return 0;
    }
    answer::write_closure(checker::closure(file), out)
}

// Asks a question: three that are fixed, each with a contract of its own, so a match and no function to be handed in.
#[tactic(auto, unfolding(crate::specs::Placed::answer_to))]
pub fn ask(question: Question, file: &[u8], out: &mut [u8]) -> usize
    ensures { Placed (answer_to question file.now) out.old result out.new }
{
    match question {
        Question::Sharing => reply_sharing(file, out),
        Question::Closure => reply_closure(file, out),
        Question::Verdict => reply(file, out),
    }
}

// Reads until the buffer is full or the input ends, and gives how many bytes then stand at its start.
pub fn read_full<R: Read>(input: &mut R, buf: &mut [u8]) -> io::Result<usize>
    ensures in_bounds { ReadsAtMost result buf.new }
    ensures bytes { IfOk result (λ n. Consumes (R.remaining input.old) (R.remaining input.new) (take n buf.new)) }
    ensures to_the_end { IfOk result (λ n. n < length buf.new → IsAtEnd (R.remaining input.new)) }
{
    let mut done = 0;
    // No index is counted: a read gives as many bytes as it likes.
    while done < buf.len() {
        let got = input.read(&mut buf[done..])?;
        if got == 0 {
            break;
        }
        done += got;
    }
    Ok(done)
}
