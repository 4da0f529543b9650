// The answers to the two questions.
ghost use Rattle.std.specs.Prelude.{◌≤◌, length};
ghost use Rattle.paper.specs.Answer.{sharing_answer, closure_answer};
ghost use Rattle.verdicts.specs.Refused.{asked};
ghost use Rattle.verdicts.specs.Said.{said_sharing, said_closure};
ghost use Rattle.answer.specs.Shown.{Wrote};

use crate::eight::put_eight;
use crate::{Lines, Shown};
use verdicts::{Closure, FinalPair, Refusal};

// Writes the answer to the first question from the buffer's start, and gives its length.
pub fn write_sharing(s: Result<Option<FinalPair>, Refusal>, out: &mut [u8]) -> usize
    requires { 128 ≤ length out.old }
    ensures { Wrote (sharing_answer (asked said_sharing s)) out.old result out.new }
{
    match s {
        Ok(Some(pair)) => put_eight(
            out,
            b"sharing=shared\n",
            Lines::final_pair(pair, Shown::Nothing),
        ),
        Ok(None) => put_eight(out, b"sharing=none\n", Lines::only_examined(Shown::Nothing)),
        Err(r) => put_eight(out, b"sharing=malformed\n", Lines::refused(r)),
    }
}

// Writes the answer to the second question from the buffer's start, and gives its length.
pub fn write_closure(k: Result<Closure, Refusal>, out: &mut [u8]) -> usize
    requires { 128 ≤ length out.old }
    ensures { Wrote (closure_answer (asked said_closure k)) out.old result out.new }
{
    match k {
        Ok(Closure::Critical { pair, examined }) => put_eight(
            out,
            b"closure=critical\n",
            Lines::found(pair, examined),
        ),
        Ok(Closure::Closed { examined }) => put_eight(
            out,
            b"closure=closed\n",
            Lines::only_examined(Shown::Number(examined)),
        ),
        Ok(Closure::Stopped { examined }) => put_eight(
            out,
            b"closure=stopped\n",
            Lines::only_examined(Shown::Number(examined)),
        ),
        Err(r) => put_eight(out, b"closure=malformed\n", Lines::refused(r)),
    }
}
