// The classes that a prefix of a rule's variables has, and what is left to choose.
ghost use Rattle.std.specs.Prelude.{◌≡◌, ◌^◌, ◌≤◌, ◌<◌};
ghost use Rattle.verdicts.specs.Said.{classes_of};
ghost use Rattle.lanes.specs.Prefixes.{rest, choices, chosen, shown, Writable, pair_of};

use verdicts::{CriticalPair, NO_CLASS};

// How many of v variables are left where the first i have their classes.
#[tactic(auto, unfolding(crate::specs::Prefixes::rest))]
fn left(v: u8, i: u8) -> u8
    ensures { result ≡ rest v i }
{
    v.saturating_sub(i).max(v.min(1))
}

// How many substitutions have the same classes in the first i of v variables, all classes of the last being judged at once.
pub fn many(k: u64, v: u8, i: u8) -> u64
    requires { (k ≤ 64) × (v ≤ 4) × (0 < i) }
    ensures { result ≡ k ^ rest v i }
{
    k.pow(left(v, i) as u32)
}

// How many classes the variable i runs through by itself.
#[tactic(auto, unfolding(crate::specs::Prefixes::choices))]
pub fn tries(k: u64, v: u8, i: u8) -> u64
    requires { i < 4 }
    ensures { result ≡ choices k v i }
{
    if i + 1 < v { k } else { 1 }
}

// The class that is shown of the variable i of v: its own before the last one, the lane's for the last, and none where there is no such variable.
fn shown(v: u8, i: u8, own: u64, lane: u64) -> u8
    requires { (i < 4) × (own < 64) × (lane < 64) }
    ensures { result ≡ shown v i own lane }
{
    if i + 1 < v {
        own as u8
    } else if i + 1 == v {
        lane as u8
    } else {
        NO_CLASS
    }
}

// The critical pair of a rule, with the classes of its v variables.
pub fn pair(rule: usize, v: u8, x0: u64, x1: u64, x2: u64, j: u64, q: u64) -> CriticalPair
    requires { Writable rule v x0 x1 x2 j q }
    ensures is { result ≡ pair_of rule v x0 x1 x2 j q }
    ensures said { (result.rule ≡ rule) × (classes_of result ≡ chosen v x0 x1 x2 j) × (result.class ≡ q) }
{
    CriticalPair {
        rule: rule as u8,
        x0: shown(v, 0, x0, j),
        x1: shown(v, 1, x1, j),
        x2: shown(v, 2, x2, j),
        x3: shown(v, 3, j, j),
        class: q as u8,
    }
}
