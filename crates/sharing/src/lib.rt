// Which classes and which states of the bad automaton share a tree: a mask for each class, filled until nothing is added.
#![tactic(auto)]

mod two_tables;

ghost use Rattle.sharing.specs.Share.{Exact, Shareable};

use sets::{ALL, WIDTH};
use two_tables::TwoTables;

// For each class the states of the bad automaton that it shares a tree with.
pub fn share<'a>(merged: &'a [u8], bad: &'a [u8], ar: &'a [u8]) -> [u64; WIDTH]
    requires { Shareable merged.now bad.now ar.now }
    ensures { Exact merged.now bad.now ar.now result }
{
    let tables = TwoTables {
        merged,
        bad,
        arities: ar,
    };
    let mut pairs = [0u64; WIDTH];
    // All rows are new before the first pass. No index is counted: it ends when a pass adds nothing.
    let mut dirty = ALL;
    while dirty != 0 {
        dirty = tables.pass(&mut pairs, dirty);
    }
    pairs
}
