// The answer to a verdict.
ghost use Rattle.std.specs.Prelude.{◌≤◌, length};
ghost use Rattle.paper.specs.Answer.{answer};
ghost use Rattle.verdicts.specs.Said.{said_of_file};
ghost use Rattle.answer.specs.Shown.{Wrote};

use crate::eight::put_eight;
use crate::{Lines, Shown};
use verdicts::{Refusal, Verdict};

// Writes the answer to a file's verdict from the buffer's start, and gives its length.
pub fn write(v: Result<Verdict, Refusal>, out: &mut [u8]) -> usize
    requires { 128 ≤ length out.old }
    ensures { Wrote (answer (said_of_file v)) out.old result out.new }
{
    match v {
        Ok(Verdict::Unsuitable(pair)) => put_eight(
            out,
            b"verdict=unsuitable\n",
            Lines::final_pair(pair, Shown::Number(0)),
        ),
        Ok(Verdict::Critical { pair, examined }) => put_eight(
            out,
            b"verdict=critical\n",
            Lines::found(pair, examined),
        ),
        Ok(Verdict::Accepted { examined }) => put_eight(
            out,
            b"verdict=accepted\n",
            Lines::only_examined(Shown::Number(examined)),
        ),
        Ok(Verdict::Stopped { examined }) => put_eight(
            out,
            b"verdict=stopped\n",
            Lines::only_examined(Shown::Number(examined)),
        ),
        Err(r) => put_eight(out, b"verdict=malformed\n", Lines::refused(r)),
    }
}
