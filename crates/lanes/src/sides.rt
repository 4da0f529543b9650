// Both sides of a rule in every lane.
ghost use Rattle.std.specs.Prelude.{◌≡◌, true, false, not, ◌&&◌, ℕ, ◌+◌, ◌*◌, ◌≤◌, ◌<◌, length, get_or};
ghost use Rattle.theory.specs.Rewriting.{Rule};
ghost use Rattle.sets.specs.Sets.{mem, less};
ghost use Rattle.woven.specs.Meant.{moves};
ghost use Rattle.values.specs.Lanes.{lit, lane};
ghost use Rattle.values.specs.Standing.{Spelled, Kept};
ghost use Rattle.lanes.specs.Batches.{Judgeable, Compared, Inspectable, Untouched};

use sets::{has, minus};
use tables::{RULE, SIDE};
use values::{WORDS, sheet_of, value};
use woven::Automaton;

// Whether no lane of a row is lit. All words are joined first, so that it becomes a few vector operations.
fn dark(row: [u64; WORDS]) -> bool
    ensures { result ≡ true → (l : ℕ) → l < 512 → lit row l ≡ false }
{
    let mut all = 0;
    for word in row {
        all |= word;
    }
    all == 0
}

// Whether the sheet of the left side has no class in any lane.
fn left_empty(m: &[[u64; WORDS]], k: usize) -> bool
    requires { k ≤ length m.now }
    ensures { result ≡ true → (l q : ℕ) → l < 512 → lane k m.now 0 l q ≡ false }
{
    m[..k].iter().all(|row| dark(*row))
}

// The lanes of a that are not lit in b.
fn without(a: [u64; WORDS], b: [u64; WORDS]) -> [u64; WORDS]
    ensures { (l : ℕ) → l < 512 → lit result l ≡ (lit a l && not (lit b l)) }
{
    let mut r = [0u64; WORDS];
    for (y, word) in r.iter_mut().enumerate() {
        *word = minus(a[y], b[y]);
    }
    r
}

// Whether in every lane each class of the left side's sheet is in the sheet at row b.
fn left_within(m: &[[u64; WORDS]], k: usize, b: usize) -> bool
    requires { (k ≤ length m.now) × (b + k ≤ length m.now) }
    ensures { result ≡ true → (l q : ℕ) → l < 512 → less (lane k m.now 0 l) (lane k m.now b l) q ≡ false }
{
    m[..k]
        .iter()
        .zip(&m[b..b + k])
        .all(|(left, right)| dark(without(*left, *right)))
}

// Whether the left side has a class that the right side has not, in some lane. The right side is valued only where the left has a class.
pub fn compare<'a>(
    delta: Automaton<'a>,
    tokens: &'a [u8],
    near: Option<u8>,
    ends: &mut [u8; RULE],
    m: &mut [[u64; WORDS]],
) -> bool
    requires judgeable { Judgeable delta.arities.now tokens.now delta.states m.old }
    requires kept { Kept (moves delta) delta.arities.now tokens.now delta.states near m.old ends.old }
    ensures compared { (rule : Rule) → Spelled delta.entry.arities.now tokens.now rule
        → Compared (moves delta.entry) tokens.now delta.entry.states m.old m.new rule result }
    ensures kept_2 { Kept (moves delta.entry) delta.entry.arities.now tokens.now delta.entry.states near m.new ends.new
        × Untouched delta.entry.states m.old m.new }
{
    let k = delta.states;
    value(delta, tokens, near, 0, ends, m);
    if left_empty(m, k) {
        return false;
    }
    value(delta, tokens, near, SIDE, ends, m);
    let right = sheet_of(tokens, SIDE) * k;
    !left_within(m, k, right)
}

// The classes j, one to each of the first 64 lanes, in whose lane the left side's sheet has a class.
pub fn left_lanes(m: &[[u64; WORDS]], k: usize) -> u64
    requires { k ≤ length m.now }
    ensures { (j q : ℕ) → j < 64 → mem result j ≡ false → lane k m.now 0 j q ≡ false }
{
    let mut all = 0;
    for row in &m[..k] {
        all |= row[0];
    }
    all
}

// Whether the class q is in the left side's sheet and not in the sheet at row b, in lane j of the first 64.
pub fn critical(m: &[[u64; WORDS]], k: usize, b: usize, q: usize, j: u64) -> bool
    requires { Inspectable k m.now b q j }
    ensures { result ≡ less (lane k m.now 0 j) (lane k m.now b j) q }
{
    has(minus(m[q][0], m[b + q][0]), j)
}
