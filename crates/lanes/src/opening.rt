// Which classes of the variable after a prefix are to be looked at: not those with which the left side has no class, nor those that a sweep of the last
// two variables finds without a critical pair.
ghost use Rattle.std.specs.Prelude.{◌≡◌, false, ◌+◌, ◌≤◌, ◌<◌, length};
ghost use Rattle.theory.specs.Rewriting.{Rule};
ghost use Rattle.values.specs.Standing.{Each, Spelled};
ghost use Rattle.lanes.specs.Automaton.{meant};
ghost use Rattle.lanes.specs.Batches.{Judgeable, Prefix, Long, Others, Alive, CalmAll, Tried, Swept, Open};

use super::sides::{compare, left_lanes};
use super::variables::{fix, fix_all, free_from, pair_up};
use sets::{ALL, has, with};
use tables::{RULE, VARIABLE};
use values::{LANES, WORDS, value};
use woven::Automaton;

// The classes of the variable after the prefix with which the left side can have a class at all.
fn alive<'a>(delta: Automaton<'a>, tokens: &'a [u8], xs: &'a [u8], m: &mut [[u64; WORDS]]) -> u64
    requires { Judgeable delta.arities.now tokens.now delta.states m.old × Prefix delta.states 1 xs.now }
    ensures { ((rule : Rule) → Spelled delta.entry.arities.now tokens.now rule
        → Alive (meant delta.entry) rule xs.now result)
        × Long m.old m.new }
{
    let k = delta.states;
    let mut ends = [0u8; RULE];
    let own = xs.len();
    fix_all(m, k, xs);
    pair_up(m, k, own + 1, own, 0, k);
    free_from(m, k, own + 1);
    value(delta, tokens, None, 0, &mut ends, m);
    left_lanes(m, k)
}

// Whether some pair of classes of the two variables after the prefix may have a critical pair. It stops at the first, where `sweep` gathers a mask.
fn pairs<'a>(delta: Automaton<'a>, tokens: &'a [u8], xs: &'a [u8], m: &mut [[u64; WORDS]]) -> bool
    requires { Judgeable delta.arities.now tokens.now delta.states m.old × Prefix delta.states 2 xs.now }
    ensures { ((rule : Rule) → Spelled delta.entry.arities.now tokens.now rule
        → Each (λ x. x < length xs.now + 2) rule.left → Each (λ x. x < length xs.now + 2) rule.right → result ≡ false
        → CalmAll (meant delta.entry) rule xs.now)
        × Long m.old m.new }
{
    let k = delta.states;
    let own = xs.len();
    fix_all(m, k, xs);
    for start in (0..k * k).step_by(LANES) {
        let mut ends = [0u8; RULE];
        pair_up(m, k, own, own + 1, start, LANES);
        if compare(delta, tokens, None, &mut ends, m) {
            return true;
        }
    }
    false
}

// Of the classes in `live` of the variable `own`, those with which a lane has a critical pair are added to `found`. The variables before it have their
// classes, and the two after it have theirs in the lanes.
// A subterm without the variable is valued once for all its classes.
fn tried<'a>(
    delta: Automaton<'a>,
    tokens: &'a [u8],
    own: usize,
    live: u64,
    found: u64,
    m: &mut [[u64; WORDS]],
) -> u64
    requires { Judgeable delta.arities.now tokens.now delta.states m.old × (own < 2) }
    ensures { ((rule : Rule) → Spelled delta.entry.arities.now tokens.now rule
        → Tried delta.entry.arities.now delta.entry.words.now delta.entry.heads.now delta.entry.states own live found m.old rule result)
        × Others delta.entry.states own m.old m.new }
{
    let k = delta.states;
    let near = Some(VARIABLE + own as u8);
    let mut ends = [0u8; RULE];
    let mut mask = found;
    for x in 0..k {
        let class = x as u64;
        if has(live, class) && !has(mask, class) {
            fix(m, k, own, x);
            if compare(delta, tokens, near, &mut ends, m) {
                mask = with(mask, class);
            }
        }
    }
    mask
}

// The classes in `live` of the variable after the prefix, the third last, with which some lane of some batch of the last two variables has a critical pair.
fn sweep<'a>(
    delta: Automaton<'a>,
    tokens: &'a [u8],
    xs: &'a [u8],
    live: u64,
    m: &mut [[u64; WORDS]],
) -> u64
    requires { Judgeable delta.arities.now tokens.now delta.states m.old × Prefix delta.states 1 xs.now }
    ensures { ((rule : Rule) → Spelled delta.entry.arities.now tokens.now rule
        → Each (λ x. x < length xs.now + 3) rule.left → Each (λ x. x < length xs.now + 3) rule.right
        → Swept (meant delta.entry) rule xs.now live result)
        × Long m.old m.new }
{
    let k = delta.states;
    let own = xs.len();
    fix_all(m, k, xs);
    let mut found: u64 = 0;
    for start in (0..k * k).step_by(LANES) {
        pair_up(m, k, own + 1, own + 2, start, LANES);
        found = tried(delta, tokens, own, live, found, m);
    }
    found
}

// The classes of the variable after the prefix that are to be looked at. Where it is the last variable, or there is none, all of them; where it is the
// second last, all or none.
pub fn open<'a>(
    delta: Automaton<'a>,
    tokens: &'a [u8],
    v: usize,
    xs: &'a [u8],
    needed: u64,
    m: &mut [[u64; WORDS]],
) -> u64
    requires { Judgeable delta.arities.now tokens.now delta.states m.old × (v ≤ 4) × Prefix delta.states 2 xs.now }
    ensures { ((rule : Rule) → Spelled delta.entry.arities.now tokens.now rule
        → Each (λ x. x < v) rule.left → Each (λ x. x < v) rule.right
        → Open (meant delta.entry) rule v xs.now needed result)
        × Long m.old m.new }
{
    let own = xs.len();
    if v < own + 2 {
        return ALL;
    }
    if v == own + 2 {
        if pairs(delta, tokens, xs, m) {
            return ALL;
        }
        return 0;
    }
    let live = alive(delta, tokens, xs, m) & needed;
    if v == own + 3 {
        return sweep(delta, tokens, xs, live, m);
    }
    live
}
