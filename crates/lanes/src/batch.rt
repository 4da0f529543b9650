// The substitutions of a rule that differ in the last variable alone, one to a lane.
ghost use Rattle.std.specs.Prelude.{◌<◌, get_or};
ghost use Rattle.theory.specs.Rewriting.{Rule};
ghost use Rattle.values.specs.Standing.{Spelled, Each};
ghost use Rattle.lanes.specs.Automaton.{meant};
ghost use Rattle.lanes.specs.Batches.{Judgeable, BeforeLast, Batch, Long};

use super::sides::compare;
use super::variables::{fix_all, pair_up};
use tables::RULE;
use values::WORDS;
use woven::Automaton;

// Whether one of them may have a critical pair, xs being the classes of the variables before the last (as many of these as the rule has):
// then the sheets of the sides have their values. Nothing is kept past the batch, so no variable is told apart.
pub fn batch<'a>(
    delta: Automaton<'a>,
    tokens: &'a [u8],
    v: usize,
    xs: &'a [u8],
    m: &mut [[u64; WORDS]],
) -> bool
    requires { Judgeable delta.arities.now tokens.now delta.states m.old × BeforeLast delta.states v xs.now }
    ensures { ((rule : Rule) → Spelled delta.entry.arities.now tokens.now rule → Each (λ x. x < v) rule.left
        → Each (λ x. x < v) rule.right
        → Batch (meant delta.entry) rule v
        (get_or xs.now 0 0) (get_or xs.now 1 0) (get_or xs.now 2 0) tokens.now m.new result)
        × Long m.old m.new }
{
    let k = delta.states;
    let mut ends = [0u8; RULE];
    if v < 2 {
        pair_up(m, k, 1, 0, 0, k);
    } else {
        let hi = v - 2;
        fix_all(m, k, &xs[..hi]);
        pair_up(m, k, hi, v - 1, xs[hi] as usize * k, k);
    }
    compare(delta, tokens, None, &mut ends, m)
}
