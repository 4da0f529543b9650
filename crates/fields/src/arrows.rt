// The lines of transitions.
ghost use Rattle.std.specs.Prelude.{◌≡◌, ◌≤◌, ◌<◌, false};
ghost use Rattle.fields.specs.Line.{line_row};
ghost use Rattle.fields.specs.Said.{Placed, ArrowLine};
ghost use Rattle.fields.specs.Trans.{arg_in};

use crate::cursor::{Cursor, Sort};
use crate::rows::Kind;
use crate::signature::Signature;
use verdicts::{Reason, Refusal};

// A transition: its symbol, its arguments (0 past the symbol's arity) and its target.
#[derive(Clone, Copy)]
pub struct Trans {
    pub symbol: u8,
    pub a: u8,
    pub b: u8,
    pub c: u8,
    pub target: u8,
}

// The number at i, or 0 where it is the last of the line or past it.
#[tactic(auto, unfolding(crate::specs::Trans::arg_in))]
fn arg_in(items: &[u8], i: usize) -> u8
    requires { i < 64 }
    ensures { result ≡ arg_in items.now i }
{
    if i + 1 < items.len() {
        return items[i];
    }
    0
}

impl Cursor {
    // A line of a transition over the symbols of this signature, and so many states.
    #[tactic(auto, unfolding(crate::specs::Listed::Limited))]
    pub fn trans_line(
        self,
        file: &[u8],
        kind: Kind,
        signature: Signature,
        states: u32,
    ) -> Result<(Trans, Cursor), Refusal>
        requires some { (line_row kind).empty ≡ false }
        requires placed { Placed file.now self }
        requires le_states { (1 ≤ states) × (states ≤ 64) }
        ensures { ArrowLine file.now signature.entry.arities.now kind states self result }
    {
        let arities = signature.arities;
        let sort = Sort::Numbers {
            first: arities.len() as u32 - 1,
            rest: states - 1,
        };
        let (it, next) = self.list_line(file, kind, sort)?;
        let symbol = it.items[0];
        if it.count != arities[symbol as usize] as usize + 2 {
            return Err(self.refuse(Reason::WrongCount));
        }
        let items = &it.items[..it.count];
        let trans = Trans {
            symbol,
            a: arg_in(items, 1),
            b: arg_in(items, 2),
            c: arg_in(items, 3),
            target: items[items.len() - 1],
        };
        Ok((trans, next))
    }
}
