// The sides of rules: tokens that are one term, and their variables.
#![tactic(auto)]

ghost use Rattle.std.specs.Prelude.{◌≡◌, ◌≤◌, ◌<◌, length};
ghost use Rattle.std.specs.List.{list_all};
ghost use Rattle.paper.specs.Limits.{most_symbols};
ghost use Rattle.fields.specs.Said.{Placed, said_items};
ghost use Rattle.sides.specs.Tokens.{closes, open_terms, is_one, step_lined, lined, known, TokenKind, TermLine, LeftLine, RightLine};

use fields::cursor::Cursor;
use fields::lists::{Items, ROOM};
use fields::rows::Kind;
use tables::{VARIABLE, arity};
use verdicts::{Reason, Refusal};

// A side of a rule: its tokens, the first `count` (there is no heap), and how many variables the rule has.
#[derive(Clone, Copy)]
pub struct Side {
    pub tokens: [u8; ROOM],
    pub count: usize,
    pub variables: u8,
}

// How many terms stand there with the token c before n of them: a symbol takes as many as its arity says. None where there are fewer.
#[tactic(auto, unfolding(crate::specs::Tokens::closes))]
fn closed(arities: &[u8], c: u8, n: usize) -> Option<usize>
    requires { n < 64 }
    ensures { result ≡ closes arities.now c n }
{
    if VARIABLE <= c {
        return Some(n + 1);
    }
    let a = arity(arities, c) as usize;
    if n < a {
        return None;
    }
    Some(n - a + 1)
}

// How many terms the tokens write in preorder: a pass from the right. None where a token wants more than there are.
fn terms(tokens: &[u8], arities: &[u8]) -> Option<usize>
    requires { length tokens.now ≤ 64 }
    ensures { result ≡ open_terms arities.now tokens.now }
{
    let mut n = 0;
    for c in tokens.iter().rev() {
        n = closed(arities, *c, n)?;
    }
    Some(n)
}

// Whether the tokens are one term.
#[tactic(auto, unfolding(crate::specs::Tokens::is_one))]
fn is_one_term(tokens: &[u8], arities: &[u8]) -> bool
    requires { length tokens.now ≤ 64 }
    ensures { result ≡ is_one (open_terms arities.now tokens.now) }
{
    terms(tokens, arities) == Some(1)
}

// How many variables came in order, with the token c, where there were v. None where it is another variable than the next.
#[tactic(auto, unfolding(crate::specs::Tokens::step_lined))]
fn next_in_line(c: u8, v: u8) -> Option<u8>
    requires { v < 64 }
    ensures { result ≡ step_lined c v }
{
    if c < VARIABLE {
        return Some(v);
    }
    if c == VARIABLE + v {
        return Some(v + 1);
    }
    None
}

// How many variables the tokens have, where these are x0, x1, .. in this order.
fn line_up(tokens: &[u8]) -> Option<u8>
    requires { length tokens.now ≤ 64 }
    ensures { result ≡ lined 0 tokens.now }
{
    let mut v = 0;
    for c in tokens {
        v = next_in_line(*c, v)?;
    }
    Some(v)
}

// Whether every variable of the tokens is below v.
fn all_known(tokens: &[u8], v: u8) -> bool
    ensures { result ≡ list_all (known v) tokens.now }
{
    tokens.iter().all(|c| *c < VARIABLE || *c - VARIABLE < v)
}

// The tokens of a line.
fn tokens_of(it: &Items) -> &[u8]
    requires { it.now.count ≤ 64 }
    ensures { result.now ≡ said_items it.now }
{
    &it.items[..it.count]
}

// A line of one term over the symbols that have these arities.
fn term_line(c: Cursor, file: &[u8], kind: Kind, arities: &[u8]) -> Result<(Items, Cursor), Refusal>
    requires kind_bound { TokenKind kind }
    requires few { length arities.now ≤ most_symbols }
    requires placed { Placed file.now c }
    ensures { TermLine file.now arities.now kind c result }
{
    let (it, next) = c.term_line(file, kind, arities.len() as u32)?;
    if !is_one_term(tokens_of(&it), arities) {
        return Err(c.refuse(Reason::NoTerm));
    }
    Ok((it, next))
}

// A left side. Any arities will do, and none: no `Signature` is asked, which has one symbol at least and no arity above 3.
#[tactic(auto, using(crate::proofs::Further::whole_it))]
pub fn left_line(c: Cursor, file: &[u8], arities: &[u8]) -> Result<(Side, Cursor), Refusal>
    requires few { length arities.now ≤ most_symbols }
    requires placed { Placed file.now c }
    ensures { LeftLine file.now arities.now c result }
{
    let (it, next) = term_line(c, file, Kind::Left, arities)?;
    if VARIABLE <= it.items[0] {
        return Err(c.refuse(Reason::LeftVariables));
    }
    match line_up(tokens_of(&it)) {
        None => Err(c.refuse(Reason::LeftVariables)),
        Some(variables) => {
            let side = Side {
                tokens: it.items,
                count: it.count,
                variables,
            };
            Ok((side, next))
        }
    }
}

// A right side, where the left side has v variables.
#[tactic(auto, using(crate::proofs::Further::whole_it))]
pub fn right_line(c: Cursor, file: &[u8], arities: &[u8], v: u8) -> Result<(Side, Cursor), Refusal>
    requires few { length arities.now ≤ most_symbols }
    requires placed { Placed file.now c }
    ensures { RightLine file.now arities.now c v result }
{
    let (it, next) = term_line(c, file, Kind::Right, arities)?;
    if !all_known(tokens_of(&it), v) {
        return Err(c.refuse(Reason::UnknownVariable));
    }
    let side = Side {
        tokens: it.items,
        count: it.count,
        variables: v,
    };
    Ok((side, next))
}
