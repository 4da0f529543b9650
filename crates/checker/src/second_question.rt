// The second question, asked apart: is there a critical pair within the budget? Nothing is asked of the caller.
ghost use Rattle.std.specs.Prelude.{◌≡◌, IfOk};
ghost use Rattle.paper.specs.Computed.{closure_of};
ghost use Rattle.verdicts.specs.Refused.{asked};
ghost use Rattle.verdicts.specs.Said.{said_closure, EndedIn};

use verdicts::{Closure, Refusal};

// The first critical pair with its count, closed with the total, stopped with the budget, or the refusal with its line. An unsuitable
// merging is judged just so, and of the bad automaton nothing is said.
#[tactic(auto, using(crate::proofs::FromReading::answered), unfolding(verdicts::specs::Refused::asked, paper::specs::Computed::closure_of))]
pub fn closure(file: &[u8]) -> Result<Closure, Refusal>
    ensures said { asked said_closure result ≡ closure_of file.now }
    ensures ended { IfOk result EndedIn }
{
    let read = certificate::read(file)?;
    Ok(judge::closure(&read))
}
