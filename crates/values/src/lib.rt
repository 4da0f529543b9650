// The value of a term in all lanes at once. It is a sheet of rows, one to a class: see specs/Lanes.
#![tactic(auto)]

ghost use Rattle.std.specs.Prelude.{◌≡◌, true, false, ◌||◌, ◌&&◌, List, ℕ, ◌+◌, ◌≤◌, ◌<◌, length, get_or};
ghost use Rattle.paper.specs.Limits.{most_arity};
ghost use Rattle.woven.specs.Woven.{part};
ghost use Rattle.woven.specs.Meant.{moves};
ghost use Rattle.values.specs.Lanes.{lit, sheet_of};
ghost use Rattle.values.specs.Rows.{all_lit, Runnable, RunOf, Gatherable, Gathered};
ghost use Rattle.values.specs.Standing.{Kept, Keepable, Noted, Valuable, Valued};

use sets::{ALL, WIDTH};
use tables::{ARITY, RULE, TRANSITIONS, VARIABLE, VARIABLES, arity};
use woven::{Automaton, TARGET};

// A row has eight words of 64 lanes.
pub const WORDS: usize = 8;

pub const LANES: usize = WORDS * WIDTH;

// How many sheets a rule has: one to each token, and behind them one to each variable.
pub const SHEETS: usize = RULE + VARIABLES;

// By how much a variable's token is above the number of its sheet.
const ABOVE: usize = VARIABLE as usize - RULE;

// How many bits a byte of a word has, and what the numbers in it are below.
pub const BYTE: u64 = 8;

const PART: u64 = 64;

// Which sheet has the value of the term at a place.
#[tactic(auto, unfolding(crate::specs::Lanes::sheet_of))]
pub fn sheet_of(tokens: &[u8], at: usize) -> usize
    requires { at < length tokens.now }
    ensures { result ≡ sheet_of tokens.now at }
{
    let token = tokens[at];
    if token < VARIABLE {
        at
    } else {
        token as usize - ABOVE
    }
}

// The number in byte i of a word.
#[tactic(auto, unfolding(woven::specs::Woven::part))]
pub fn part_of(w: u64, i: u64) -> usize
    requires { i < 5 }
    ensures { (result ≡ part w i) × (result < 64) }
{
    ((w >> (BYTE * i)) % PART) as usize
}

// The row s with the lanes that three others have in common. The loop has a fixed count, so that it becomes a few vector operations.
fn join(s: [u64; WORDS], a: [u64; WORDS], b: [u64; WORDS], c: [u64; WORDS]) -> [u64; WORDS]
    ensures { (l : ℕ) → l < 512 → lit result l ≡ (lit s l || (lit a l && (lit b l && lit c l))) }
{
    let mut r = [0u64; WORDS];
    for y in 0..WORDS {
        r[y] = s[y] | a[y] & (b[y] & c[y]);
    }
    r
}

// The row s with the lanes in which the first n arguments of the word w are in the sheets of `kids`.
// Where there are fewer than three, the last row is joined again.
fn gain(n: u8, w: u64, s: [u64; WORDS], m: &[[u64; WORDS]], kids: [usize; ARITY]) -> [u64; WORDS]
    requires { (n ≤ most_arity) × ((j : ℕ) → j < n → get_or kids j 0 + part w j < length m.now) }
    ensures { (l : ℕ) → l < 512 → lit result l ≡ (lit s l || all_lit m.now n w kids l) }
{
    if n == 0 {
        return [ALL; WORDS];
    }
    let a = kids[0] + part_of(w, 0);
    if n == 1 {
        return join(s, m[a], m[a], m[a]);
    }
    let b = kids[1] + part_of(w, 1);
    if n == 2 {
        return join(s, m[a], m[b], m[b]);
    }
    let c = kids[2] + part_of(w, 2);
    join(s, m[a], m[b], m[c])
}

// The lanes in which a word of target q has its first n arguments in the sheets of `kids`:
// of the words from place `from` on, up to `end` or to the first of another target. And the place after those words.
fn run(
    words: &[u64; TRANSITIONS],
    end: usize,
    n: u8,
    q: usize,
    from: usize,
    m: &[[u64; WORDS]],
    kids: [usize; ARITY],
) -> ([u64; WORDS], usize)
    requires { Runnable words.now end n from m.now kids }
    ensures { RunOf words.now end n q from m.now kids result.0 result.1 }
{
    let mut lanes = [0u64; WORDS];
    for i in from..end {
        let w = words[i];
        if part_of(w, TARGET) != q {
            return (lanes, i);
        }
        let more = gain(n, w, lanes, m, kids);
        lanes = more;
    }
    (lanes, end)
}

// In each lane, every class that some word of f gives for arguments from the first n of the sheets `kids`, into the sheet at row `out`.
// The words of f stand by rising target, so that each row is written once.
fn gather(delta: Automaton, f: u8, n: u8, m: &mut [[u64; WORDS]], kids: [usize; ARITY], out: usize)
    requires { Gatherable delta.words.now delta.heads.now f n delta.states m.old kids out }
    ensures { (arities : List ℕ)
        → Gathered arities delta.entry.words.now delta.entry.heads.now f n delta.entry.states m.old kids out m.new }
{
    let words = delta.words;
    let heads = delta.heads;
    let at = f as usize;
    let end = heads[at + 1] as usize;
    let mut i = heads[at] as usize;
    for q in 0..delta.states {
        let (lanes, next) = run(words, end, n, q, i, m, kids);
        m[out + q] = lanes;
        i = next;
    }
}

// The term at a place is kept from then on, where those at a, b and c are.
fn keep(ends: &mut [u8; RULE], at: usize, a: usize, b: usize, c: usize, next: usize)
    requires { Keepable at a b c next }
    ensures { Noted ends.old at a b c next ends.new }
{
    if ends[a] != 0 && ends[b] != 0 && ends[c] != 0 {
        ends[at] = next as u8;
    }
}

// Whether a token is that of the variable that gets another class next.
fn is_near(near: Option<u8>, token: u8) -> bool
    ensures own { result ≡ true → near ≡ Some token }
    ensures other { result ≡ false → near ≡ Some token → ⊥ }
{
    match near {
        Some(own) => own == token,
        None => false,
    }
}

// Values the term at a place, where it is not kept: its sheet gets its value in each lane, by the sets in the variables' sheets.
// The place after the term.
// What is without the variable whose token is `near`, if there is one, is kept from then on. Each call has fewer tokens left.
pub fn value<'a>(
    delta: Automaton<'a>,
    tokens: &'a [u8],
    near: Option<u8>,
    at: usize,
    ends: &mut [u8; RULE],
    m: &mut [[u64; WORDS]],
) -> usize
    requires { Valuable delta.arities.now delta.words.now delta.heads.now tokens.now near delta.states at ends.old m.old }
    ensures valued { Valued (moves delta.entry) delta.entry.arities.now tokens.now delta.entry.states m.old at m.new result }
    ensures kept { Kept (moves delta.entry) delta.entry.arities.now tokens.now delta.entry.states near m.new ends.new }
{
    let end = ends[at] as usize;
    if end != 0 {
        return end;
    }
    let f = tokens[at];
    let here = at + 1;
    if VARIABLE <= f {
        if !is_near(near, f) {
            ends[at] = here as u8;
        }
        return here;
    }
    let k = delta.states;
    let out = at * k;
    let n = arity(delta.arities, f);
    if n == 0 {
        gather(delta, f, 0, m, [out, out, out], out);
        ends[at] = here as u8;
        return here;
    }
    let a = sheet_of(tokens, here) * k;
    let second = value(delta, tokens, near, here, ends, m);
    if n == 1 {
        gather(delta, f, 1, m, [a, a, a], out);
        keep(ends, at, here, here, here, second);
        return second;
    }
    let b = sheet_of(tokens, second) * k;
    let third = value(delta, tokens, near, second, ends, m);
    if n == 2 {
        gather(delta, f, 2, m, [a, b, b], out);
        keep(ends, at, here, second, second, third);
        return third;
    }
    let c = sheet_of(tokens, third) * k;
    let after = value(delta, tokens, near, third, ends, m);
    gather(delta, f, 3, m, [a, b, c], out);
    keep(ends, at, here, second, third, after);
    after
}
