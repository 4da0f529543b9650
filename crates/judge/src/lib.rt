// The judgement: the two questions, and the verdict that is put together from them. What is asked of a certificate (`Sound`) is no invariant of its type: it
// says what is a member of which list, of which there may be more than one proof, and a ghost field takes one.
#![tactic(auto)]

pub mod merged;
pub mod suitable;

ghost use Rattle.std.specs.Prelude.{◌≡◌, ◌*◌, ◌≤◌};
ghost use Rattle.paper.specs.Computed.{closure as closure_over, sharing_in, closure_in, verdict};
ghost use Rattle.tables.specs.Held.{held, arities_of, rules_of};
ghost use Rattle.tables.specs.Sound.{Sound};
ghost use Rattle.verdicts.specs.Said.{said, said_sharing, said_closure, EndedIn, EndedVerdict};
ghost use Rattle.judge.specs.Merged.{Merged};
ghost use Rattle.search.specs.Searched.{Searchable, searched};
ghost use Rattle.judge.specs.Judged.{merged_of};

use merged::merged_rows;
use search::search;
use sets::WIDTH;
use suitable::shared_pair;
use tables::{Certificate, ROW, ROWS, Rules};
use values::{SHEETS, WORDS};
use verdicts::{Closure, FinalPair, Verdict, where_suitable};
use woven::{Automaton, weave};

// For how many classes rows are made. A class takes a row in each sheet, so for few classes few are made:
// setting them to 0 is most of what the search of a small certificate costs.
const FEW: usize = 3;

const SOME: usize = 6;

const MANY: usize = 12;

// The rows for so many classes.
const FEW_ROWS: usize = SHEETS * FEW;

const SOME_ROWS: usize = SHEETS * SOME;

const MANY_ROWS: usize = SHEETS * MANY;

const ALL_ROWS: usize = SHEETS * WIDTH;

// The rows of the merged automaton.
#[tactic(auto, using(crate::proofs::Bridge::few_initial))]
fn merged_of(c: &Certificate) -> [u8; ROWS]
    requires { Sound c.now.tables c.now.merging }
    ensures { Merged c.now.tables.initial.rows c.now.merging.merge (c.now.tables.initial.count * 5) result }
{
    let initial = &c.tables.initial;
    merged_rows(&initial.rows, &c.merging.merge, initial.count)
}

// The search over N rows. Its own function, so that these rows alone are set to 0.
#[inline(never)]
fn search_over<const N: usize>(delta: Automaton, rules: &Rules, budget: u32) -> Closure
    requires searchable { Searchable delta.arities.now rules.now }
    requires room { (52 * delta.states ≤ N) × (N ≤ 52 * 64) }
    ensures said { said_closure result ≡ searched delta.entry rules.now budget }
    ensures ended { EndedIn result }
{
    let mut rows = [[0u64; WORDS]; N];
    search(delta, rules, budget, &mut rows)
}

// The search over as few rows as there are sizes for.
fn search_fitted(delta: Automaton, rules: &Rules, budget: u32) -> Closure
    requires { Searchable delta.arities.now rules.now }
    ensures said { said_closure result ≡ searched delta.entry rules.now budget }
    ensures ended { EndedIn result }
{
    let k = delta.states;
    if k <= FEW {
        search_over::<FEW_ROWS>(delta, rules, budget)
    } else if k <= SOME {
        search_over::<SOME_ROWS>(delta, rules, budget)
    } else if k <= MANY {
        search_over::<MANY_ROWS>(delta, rules, budget)
    } else {
        search_over::<ALL_ROWS>(delta, rules, budget)
    }
}

// The first critical pair of the merged automaton, whose rows are `merged`, within the budget.
#[tactic(auto, using(crate::proofs::Bridge::few_initial))]
pub fn first_critical(c: &Certificate, merged: &[u8; ROWS]) -> Closure
    requires sound { Sound c.now.tables c.now.merging }
    requires merged { Merged c.now.tables.initial.rows c.now.merging.merge (c.now.tables.initial.count * 5) merged.now }
    ensures said { said_closure result
        ≡ closure_over (merged_of c.now.tables c.now.merging) (rules_of (arities_of c.now.tables) c.now.tables.rules) c.now.tables.budget }
    ensures ended { EndedIn result }
{
    let t = &c.tables;
    let woven = weave(&merged[..t.initial.count * ROW]);
    let delta = Automaton {
        words: &woven.words,
        heads: &woven.heads,
        arities: &t.arities[..t.symbols],
        states: c.merging.classes,
    };
    search_fitted(delta, &t.rules, t.budget)
}

// The first question, of a certificate: the first final pair that shares a tree.
#[tactic(auto, unfolding(paper::specs::Computed::sharing_in, tables::specs::Held::held))]
pub fn sharing(c: &Certificate) -> Option<FinalPair>
    requires { Sound c.now.tables c.now.merging }
    ensures { said_sharing result ≡ sharing_in (held c.now.tables c.now.merging) }
{
    shared_pair(c, &merged_of(c))
}

// The second: the first critical pair within the budget, whether a final pair shares a tree or not.
#[tactic(auto, unfolding(paper::specs::Computed::closure_in, tables::specs::Held::held))]
pub fn closure(c: &Certificate) -> Closure
    requires { Sound c.now.tables c.now.merging }
    ensures said { said_closure result ≡ closure_in (held c.now.tables c.now.merging) }
    ensures ended { EndedIn result }
{
    first_critical(c, &merged_of(c))
}

// The verdict, put together from the two: the second is asked only where the first finds nothing, and the table is merged once.
#[tactic(auto, unfolding(verdicts::specs::Said::EndedVerdict))]
pub fn judge(c: &Certificate) -> Verdict
    requires { Sound c.now.tables c.now.merging }
    ensures said { said result ≡ verdict (held c.now.tables c.now.merging) }
    ensures ended { EndedVerdict result }
{
    let merged = merged_of(c);
    match shared_pair(c, &merged) {
        Some(pair) => Verdict::Unsuitable(pair),
        None => where_suitable(first_critical(c, &merged)),
    }
}
