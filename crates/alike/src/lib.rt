// Classes of a variable that may stand for each other, by the words that count at the argument places that it has in a rule.
// A word counts only if its target is wanted there: all classes are wanted of a side, and of an argument those that a word with a wanted target has there.
#![tactic(auto)]

ghost use Rattle.std.specs.Prelude.{◌≡◌, List, ℕ, ◌≤◌, ◌<◌, length, get_or};
ghost use Rattle.woven.specs.Woven.{part, woven_moves};
ghost use Rattle.alike.specs.Alike.{Calls};
ghost use Rattle.alike.specs.Words.{rest_of, Standing, Narrowed, NarrowedTo, PlaceGiven, PlaceNarrowed};
ghost use Rattle.alike.specs.Sides.{rank, TokenGiven, TokenJoined, RowGiven, RowJoined, SideGiven, SideJoined};
ghost use Rattle.alike.specs.Needed.{Lowest, RuleGiven, Enough};

use sets::{ALL, WIDTH, below, has, minus, with};
use tables::{SIDE, VARIABLE, arity};
use values::{BYTE, part_of};
use woven::{Automaton, TARGET};

// The arguments of a symbol that are still to be walked: so many, from the argument `first` on; and the targets that are wanted of the symbol.
#[derive(Clone, Copy)]
struct Arguments {
    symbol: u8,
    first: u64,
    left: usize,
    wanted: u64,
}

// The class in byte i of a word, as the masks are asked for it, with its bound.
fn class_at(w: u64, i: u64) -> u64
    requires { i < 5 }
    ensures { (result ≡ part w i) × (result < 64) }
{
    part_of(w, i) as u64
}

// A word without its argument p.
fn rest_of(w: u64, p: u64) -> u64
    requires { p < 3 }
    ensures { result ≡ rest_of w p }
{
    w - (class_at(w, p) << (BYTE * p))
}

// The classes that are argument p of the words with this rest.
fn standing(words: &[u64], p: u64, rest: u64) -> u64
    requires { p < 3 }
    ensures { Standing words.now (length words.now) p rest result }
{
    let mut set: u64 = 0;
    for w in words {
        if rest_of(*w, p) == rest {
            set = with(set, class_at(*w, p));
        }
    }
    set
}

// The classes of the mask that are in the set if d is, and those that are not if d is not.
fn narrow(mask: u64, set: u64, d: u64) -> u64
    requires { d < 64 }
    ensures { Narrowed mask set d result }
{
    if has(set, d) {
        mask & set
    } else {
        minus(mask, set)
    }
}

// Every mask narrowed by the set.
fn narrow_all(same: &mut [u64; WIDTH], set: u64)
    requires { length same.old ≡ 64 }
    ensures { NarrowedTo set same.old 64 same.new }
{
    for (d, mask) in same.iter_mut().enumerate() {
        *mask = narrow(*mask, set, d as u64);
    }
}

// The masks narrowed, for each word of the symbol f with a wanted target, by the classes that may stand for its argument p.
fn narrow_place<'a>(delta: Automaton, f: u8, p: u64, wanted: u64, same: &mut [u64; WIDTH])
    requires { PlaceGiven f p × (length same.old ≡ 64) }
    ensures { PlaceNarrowed delta.entry.words.now delta.entry.heads.now f p wanted same.old same.new }
{
    let run = delta.words_of(f);
    for w in run {
        let target = class_at(*w, TARGET);
        if has(wanted, target) {
            narrow_all(same, standing(run, p, rest_of(*w, p)));
        }
    }
}

// The classes that are argument p of the words of the symbol f with a wanted target: gathered, where `narrow_place` narrows masks.
fn called<'a>(delta: Automaton, f: u8, p: u64, wanted: u64) -> u64
    requires { PlaceGiven f p }
    ensures { (arities : List ℕ) → Calls (woven_moves arities delta.entry.words.now (get_or delta.entry.heads.now 64 0)) wanted f p result }
{
    let mut set: u64 = 0;
    for w in delta.words_of(f) {
        if has(wanted, class_at(*w, TARGET)) {
            set = with(set, class_at(*w, p));
        }
    }
    set
}

// How many subterms follow a token.
fn rank_of(arities: &[u8], token: u8) -> usize
    ensures { result ≡ rank arities.now token }
{
    if token < VARIABLE {
        arity(arities, token) as usize
    } else {
        0
    }
}

// The masks narrowed at the first of the arguments, if the token there is the variable x.
fn join_token<'a>(delta: Automaton, x: u8, token: u8, here: Arguments, same: &mut [u64; WIDTH])
    requires { TokenGiven x here × (length same.old ≡ 64) }
    ensures { TokenJoined delta.entry.words.now delta.entry.heads.now x token here same.old same.new }
{
    if token == x + VARIABLE {
        narrow_place(delta, here.symbol, here.first, here.wanted, same);
    }
}

// The masks narrowed for each of the arguments, and for the terms within; returns the place after them. Each call has fewer tokens left.
fn join_row<'a>(
    delta: Automaton<'a>,
    tokens: &'a [u8],
    x: u8,
    here: Arguments,
    at: usize,
    same: &mut [u64; WIDTH],
) -> usize
    requires { RowGiven delta.arities.now tokens.now x here at × (length same.old ≡ 64) }
    ensures { RowJoined delta.entry.words.now delta.entry.heads.now delta.entry.arities.now tokens.now x here at
        same.old same.new result }
{
    if here.left == 0 {
        return at;
    }
    let token = tokens[at];
    join_token(delta, x, token, here, same);
    let inner = Arguments {
        symbol: token,
        first: 0,
        left: rank_of(delta.arities, token),
        wanted: called(delta, here.symbol, here.first, here.wanted),
    };
    let next = join_row(delta, tokens, x, inner, at + 1, same);
    let others = Arguments {
        symbol: here.symbol,
        first: here.first + 1,
        left: here.left - 1,
        wanted: here.wanted,
    };
    join_row(delta, tokens, x, others, next, same)
}

// The masks narrowed for each place of x in the term at a place.
fn join_side<'a>(delta: Automaton<'a>, tokens: &'a [u8], x: u8, at: usize, same: &mut [u64; WIDTH])
    requires { SideGiven delta.arities.now tokens.now x at × (length same.old ≡ 64) }
    ensures { SideJoined delta.entry.words.now delta.entry.heads.now delta.entry.arities.now tokens.now x at
        same.old same.new }
{
    let token = tokens[at];
    let inner = Arguments {
        symbol: token,
        first: 0,
        left: rank_of(delta.arities, token),
        wanted: ALL,
    };
    join_row(delta, tokens, x, inner, at + 1, same);
}

// The classes in whose masks no smaller class is.
fn leaders(same: &[u64; WIDTH]) -> u64
    ensures { Lowest same.now 64 result }
{
    let mut mask: u64 = 0;
    for (d, alike) in same.iter().enumerate() {
        let class = d as u64;
        if *alike & below(class) == 0 {
            mask = with(mask, class);
        }
    }
    mask
}

// The classes of the variable x that have to be looked at: for every other one a smaller class gives both sides of the rule the same value.
// All of them where the right side is a bare variable.
pub fn needed<'a>(delta: Automaton<'a>, tokens: &'a [u8], x: u8) -> u64
    requires { RuleGiven delta.arities.now tokens.now x }
    ensures { Enough delta.entry.words.now delta.entry.heads.now delta.entry.arities.now tokens.now x result }
{
    let head = tokens[SIDE];
    if VARIABLE <= head {
        return ALL;
    }
    let mut same = [ALL; WIDTH];
    join_side(delta, tokens, x, 0, &mut same);
    join_side(delta, tokens, x, SIDE, &mut same);
    leaders(&same)
}
