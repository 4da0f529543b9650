// The first final pair that shares a tree: the smallest class, then the smallest state of B.
ghost use Rattle.std.specs.Prelude.{◌≡◌, ◌*◌, ◌≤◌};
ghost use Rattle.sets.specs.Sets.{mem};
ghost use Rattle.paper.specs.Computed.{smallest, sharing};
ghost use Rattle.tables.specs.Sound.{Sound};
ghost use Rattle.verdicts.specs.Said.{said_sharing};
ghost use Rattle.judge.specs.Merged.{Merged};
ghost use Rattle.judge.specs.Judged.{merged_of, bad_of};
ghost use Rattle.judge.specs.Pairs.{said_first, shared_of};

use super::merged::final_classes;
use sets::{WIDTH, has};
use sharing::share;
use tables::{Certificate, ROW, ROWS};
use verdicts::FinalPair;

// The smallest member of the set below n.
fn first_below(set: u64, n: usize) -> Option<usize>
    requires { n ≤ 64 }
    ensures { said_first result ≡ smallest (mem set) 0 n }
{
    (0..n).find(|p| has(set, *p as u64))
}

// The first pair of a class in `finals`, below k, and a state in `bad`, below m, that is marked.
pub fn first_pair(
    pairs: &[u64; WIDTH],
    finals: u64,
    bad: u64,
    k: usize,
    m: usize,
) -> Option<FinalPair>
    requires { (k ≤ 64) × (m ≤ 64) }
    ensures { said_sharing result ≡ shared_of pairs.now finals bad 0 k m }
{
    for q in 0..k {
        if has(finals, q as u64) {
            if let Some(p) = first_below(pairs[q] & bad, m) {
                return Some(FinalPair {
                    class: q as u8,
                    bad: p as u8,
                });
            }
        }
    }
    None
}

// The first final pair of the merged automaton, whose rows are `merged`, and B that shares a tree.
#[tactic(auto, using(crate::proofs::Bridge::few_initial, crate::proofs::Bridge::few_bad, crate::proofs::Bridge::few_states))]
pub fn shared_pair(c: &Certificate, merged: &[u8; ROWS]) -> Option<FinalPair>
    requires sound { Sound c.now.tables c.now.merging }
    requires merged { Merged c.now.tables.initial.rows c.now.merging.merge (c.now.tables.initial.count * 5) merged.now }
    ensures { said_sharing result ≡ sharing (merged_of c.now.tables c.now.merging) (bad_of c.now.tables) }
{
    let t = &c.tables;
    let bad = &t.bad;
    let here = &merged[..t.initial.count * ROW];
    let there = &bad.rows[..bad.count * ROW];
    let pairs = share(here, there, &t.arities[..t.symbols]);
    let finals = final_classes(t.initial.finals, t.initial.states, &c.merging.merge);
    first_pair(&pairs, finals, bad.finals, c.merging.classes, bad.states)
}
