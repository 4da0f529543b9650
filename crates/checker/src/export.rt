// The operations as `checker_c` hands them to C: numbers in, numbers out.
ghost use Rattle.std.specs.Prelude.{◌≡◌, IfOk};
ghost use Rattle.paper.specs.Contract.{returned};
ghost use Rattle.paper.specs.Format.{line_number};
ghost use Rattle.paper.specs.Computed.{sharing_of, closure_of};
ghost use Rattle.verdicts.specs.Refused.{numbered, said_line, asked};
ghost use Rattle.verdicts.specs.Said.{said_sharing, said_closure, EndedIn};
ghost use Rattle.checker.specs.Gave.{packed};
ghost use Rattle.checker.specs.Numbers.{sharing_kind, sharing_numbers, closure_kind, closure_numbers};

use crate::check;
use crate::first_question::sharing;
use crate::second_question::closure;
use verdicts::{Closure, FinalPair, NO_CLASS, Reason, Refusal};

// What C reads where there is no class, no state and no rule.
const NONE: u32 = NO_CLASS as u32;

// A reason's number, and 0 for none.
#[tactic(auto, unfolding(verdicts::specs::Refused::numbered))]
fn number(reason: Option<Reason>) -> u8
    ensures { result ≡ numbered reason }
{
    match reason {
        Some(r) => r.number(),
        None => 0,
    }
}

// Judges the file and writes the answer to the start of the buffer.
// Gives the refusal's number (0 when not malformed) times 256, plus the answer's length, which is under 128.
pub fn mergecheck(file: &[u8], out: &mut [u8]) -> u64
    ensures { (result ≡ packed (returned file.now out.old))
        × (out.new ≡ (returned file.now out.old).buffer) }
{
    let a = check(file, out);
    number(a.reason) as u64 * 256 + a.length as u64
}

// An answer for C, which takes numbers: which it is, and what it says.
#[derive(Clone, Copy)]
pub struct Numbers<const N: usize> {
    pub kind: u32,
    pub words: [u32; N],
}

impl<const N: usize> Numbers<N> {
    // Fills the lent words, and gives the kind.
    fn fill(self, answer: &mut [u32; N]) -> u32
        ensures { (result ≡ self.entry.kind) × (answer.new ≡ self.entry.words) }
    {
        let words = self.words;
        *answer = words;
        self.kind
    }
}

// A line's number, and 0 for none.
#[tactic(auto, unfolding(paper::specs::Format::line_number, verdicts::specs::Refused::said_line))]
fn line(line: Option<u32>) -> u32
    ensures { result ≡ line_number (said_line line) }
{
    line.unwrap_or(0)
}

// An answer to the first question as numbers.
fn sharing_numbers(s: Result<Option<FinalPair>, Refusal>) -> Numbers<4>
    ensures { (result.kind ≡ sharing_kind (asked said_sharing s)) × (result.words ≡ sharing_numbers (asked said_sharing s)) }
{
    match s {
        Ok(None) => Numbers {
            kind: 0,
            words: [0, 0, NONE, NONE],
        },
        Ok(Some(pair)) => Numbers {
            kind: 1,
            words: [0, 0, pair.class as u32, pair.bad as u32],
        },
        Err(r) => Numbers {
            kind: 2,
            words: [r.reason.number() as u32, line(r.line), NONE, NONE],
        },
    }
}

// Asks the first question, and fills the four numbers: the refusal's number and line, the class, the state of B.
// Gives 0 for nothing, 1 for a pair, 2 for a refusal.
pub fn mergecheck_sharing(file: &[u8], answer: &mut [u32; 4]) -> u32
    ensures { (result ≡ sharing_kind (sharing_of file.now)) × (answer.new ≡ sharing_numbers (sharing_of file.now)) }
{
    sharing_numbers(sharing(file)).fill(answer)
}

// An answer to the second question as numbers.
fn closure_numbers(k: Result<Closure, Refusal>) -> Numbers<9>
    requires { IfOk k EndedIn }
    ensures { (result.kind ≡ closure_kind (asked said_closure k)) × (result.words ≡ closure_numbers (asked said_closure k)) }
{
    match k {
        Ok(Closure::Closed { examined }) => Numbers {
            kind: 0,
            words: [0, 0, NONE, NONE, NONE, NONE, NONE, NONE, examined],
        },
        Ok(Closure::Critical { pair, examined }) => Numbers {
            kind: 1,
            words: [
                0,
                0,
                pair.rule as u32,
                pair.x0 as u32,
                pair.x1 as u32,
                pair.x2 as u32,
                pair.x3 as u32,
                pair.class as u32,
                examined,
            ],
        },
        Ok(Closure::Stopped { examined }) => Numbers {
            kind: 2,
            words: [0, 0, NONE, NONE, NONE, NONE, NONE, NONE, examined],
        },
        Err(r) => Numbers {
            kind: 3,
            words: [
                r.reason.number() as u32,
                line(r.line),
                NONE,
                NONE,
                NONE,
                NONE,
                NONE,
                NONE,
                0,
            ],
        },
    }
}

// Asks the second question, and fills the nine numbers: the refusal's number and line, the rule, the classes of x0 to x3, the class, the
// examined count. Gives 0 for closed, 1 for a critical pair, 2 for stopped, 3 for a refusal.
pub fn mergecheck_closure(file: &[u8], answer: &mut [u32; 9]) -> u32
    ensures { (result ≡ closure_kind (closure_of file.now)) × (answer.new ≡ closure_numbers (closure_of file.now)) }
{
    closure_numbers(closure(file)).fill(answer)
}
