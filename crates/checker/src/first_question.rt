// The first question, asked apart: does a final pair share a tree? Nothing is asked of the caller.
ghost use Rattle.std.specs.Prelude.{◌≡◌};
ghost use Rattle.paper.specs.Computed.{sharing_of};
ghost use Rattle.verdicts.specs.Refused.{asked};
ghost use Rattle.verdicts.specs.Said.{said_sharing};

use verdicts::{FinalPair, Refusal};

// The first final pair that shares a tree, if there is one, or the refusal with its line.
#[tactic(auto, using(crate::proofs::FromReading::answered), unfolding(verdicts::specs::Refused::asked, paper::specs::Computed::sharing_of))]
pub fn sharing(file: &[u8]) -> Result<Option<FinalPair>, Refusal>
    ensures { asked said_sharing result ≡ sharing_of file.now }
{
    let read = certificate::read(file)?;
    Ok(judge::sharing(&read))
}
