// The rows of two tables, compared: what a pair of them adds to the pairs of classes and states that share a tree.
ghost use Rattle.std.specs.Prelude.{◌≡◌, ◌||◌, false, ◌/◌, ◌<◌, leb, length, get_or};
ghost use Rattle.sets.specs.Sets.{mem};
ghost use Rattle.sharing.specs.Share.{Small, rel, joins, ClosedAt, Grown, Still, Rests, AllRest, Shareable, TwoBytes, TwoRows};

use sets::{ALL, has, only, with};
use tables::{ROW, arity};

// The byte of a row that has its target.
const TARGET: usize = 4;

// Whether the class in byte i of the table is in the set.
fn arg_in(merged: &[u8], i: usize, set: u64) -> bool
    requires { (i < length merged.now) × Small merged.now }
    ensures { result ≡ mem set (get_or merged.now i 0) }
{
    has(set, merged[i] as u64)
}

// Whether the p-th arguments of two rows, in byte i of the one table and byte l of the other, are related, where a symbol has n of them.
fn arg_joins(pairs: &[u64], merged: &[u8], i: usize, bad: &[u8], l: usize, n: u8, p: u8) -> bool
    requires { TwoBytes pairs.now merged.now i bad.now l }
    ensures { result ≡ (leb n p || rel pairs.now (get_or merged.now i 0) (get_or bad.now l 0)) }
{
    n <= p || arg_in(bad, l, pairs[merged[i] as usize])
}

// Whether the p-th argument of a row, in byte i of the table, is in the set, where a symbol has n of them.
fn touched(merged: &[u8], i: usize, set: u64, n: u8, p: u8) -> bool
    requires { (i < length merged.now) × Small merged.now }
    ensures { result ≡ false → p < n → mem set (get_or merged.now i 0) ≡ false }
{
    p < n && arg_in(merged, i, set)
}

// The two tables whose rows are compared, and the arities of their symbols.
#[derive(Clone, Copy)]
pub struct TwoTables<'a> {
    pub merged: &'a [u8],
    pub bad: &'a [u8],
    pub arities: &'a [u8],
    pub ghost shareable: { Shareable merged.now bad.now arities.now },
}

impl<'a> TwoTables<'a> {
    // Whether row j of the one table and row m of the other are of one symbol, and their arguments related.
    #[tactic(auto, unfolding(crate::specs::Share::joins))]
    fn rows_join(self, pairs: &[u64], j: usize, m: usize) -> bool
        requires { TwoRows pairs.now self.merged.now j self.bad.now m }
        ensures { result ≡ joins self.entry.merged.now self.entry.bad.now self.entry.arities.now (rel pairs.now) j m }
    {
        let merged = self.merged;
        let bad = self.bad;
        let i = j * ROW;
        let l = m * ROW;
        let f = merged[i];
        if f != bad[l] {
            return false;
        }
        let n = arity(self.arities, f);
        arg_joins(pairs, merged, i + 1, bad, l + 1, n, 0)
            && arg_joins(pairs, merged, i + 2, bad, l + 2, n, 1)
            && arg_joins(pairs, merged, i + 3, bad, l + 3, n, 2)
    }

    // Adds the pair of the two rows' targets, if they join and it is not there. The class that got it, as a set: none, if nothing was added.
    fn visit(self, pairs: &mut [u64], j: usize, m: usize) -> u64
        requires { TwoRows pairs.old self.merged.now j self.bad.now m }
        ensures { Grown self.entry.merged.now self.entry.bad.now self.entry.arities.now pairs.old pairs.new result
            (ClosedAt self.entry.merged.now self.entry.bad.now self.entry.arities.now pairs.new j m) }
    {
        let merged = self.merged;
        let bad = self.bad;
        if self.rows_join(pairs, j, m) {
            let c = merged[j * ROW + TARGET] as usize;
            let b = bad[m * ROW + TARGET] as u64;
            let old = pairs[c];
            if has(old, b) {
                return 0;
            }
            pairs[c] = with(old, b);
            return only(c as u64);
        }
        0
    }

    // Row j of the one table with every row of the other. The class that got more, as a set.
    fn sweep(self, pairs: &mut [u64], j: usize) -> u64
        requires { (j < length self.merged.now / 5) × (length pairs.old ≡ 64) }
        ensures { Grown self.entry.merged.now self.entry.bad.now self.entry.arities.now pairs.old pairs.new result
            (Rests self.entry.merged.now self.entry.bad.now self.entry.arities.now pairs.new result j) }
    {
        let mut got = 0u64;
        for m in 0..self.bad.len() / ROW {
            got |= self.visit(pairs, j, m);
        }
        got
    }

    // Whether row j may add something after the masks of the classes in the set grew.
    #[tactic(auto, using(crate::proofs::Sharing::full_all))]
    fn due(self, j: usize, set: u64) -> bool
        requires { j < length self.merged.now / 5 }
        ensures { result ≡ false → Still self.entry.merged.now self.entry.arities.now set j }
    {
        let merged = self.merged;
        let i = j * ROW;
        let n = arity(self.arities, merged[i]);
        set == ALL
            || touched(merged, i + 1, set, n, 0)
            || touched(merged, i + 2, set, n, 1)
            || touched(merged, i + 3, set, n, 2)
    }

    // Row j with every row of the other table, if it may add something after the masks of the classes in the set grew.
    fn turn(self, pairs: &mut [u64], j: usize, set: u64) -> u64
        requires j_in_bounds { (j < length self.merged.now / 5) × (length pairs.old ≡ 64) }
        requires rests { Rests self.merged.now self.bad.now self.arities.now pairs.old set j }
        ensures { Grown self.entry.merged.now self.entry.bad.now self.entry.arities.now pairs.old pairs.new result
            (Rests self.entry.merged.now self.entry.bad.now self.entry.arities.now pairs.new result j) }
    {
        if self.due(j, set) {
            self.sweep(pairs, j)
        } else {
            0
        }
    }

    // Every row of the one table that may add something after the masks of the classes in `dirty` grew. The classes that got more.
    pub fn pass(self, pairs: &mut [u64], dirty: u64) -> u64
        requires { (length pairs.old ≡ 64) × AllRest self.merged.now self.bad.now self.arities.now pairs.old dirty }
        ensures { Grown self.entry.merged.now self.entry.bad.now self.entry.arities.now pairs.old pairs.new result
            (AllRest self.entry.merged.now self.entry.bad.now self.entry.arities.now pairs.new result) }
    {
        let mut live = dirty;
        let mut got = 0u64;
        for j in 0..self.merged.len() / ROW {
            let more = self.turn(pairs, j, live);
            live |= more;
            got |= more;
        }
        got
    }
}
