// The cursor, the numbers and tokens at a place, and a line's key and LF.
ghost use Rattle.std.specs.Prelude.{◌≡◌, ◌+◌, ◌≤◌, ◌<◌, drop};
ghost use Rattle.fields.specs.Number.{full, ended, number_from};
ghost use Rattle.fields.specs.Value.{entry_at, coded_as, sort_kind};
ghost use Rattle.fields.specs.Line.{after_key, has_end, key_at, unended, refuse};

use crate::rows::Kind;
use tables::{SYMBOLS, VARIABLE, VARIABLES};
use verdicts::{Reason, Refusal};

// How many digits a number may have.
const DIGITS: u32 = 8;

// A token's number where it is no token of any certificate: past every limit, so that it is refused with all other entries that are.
const NO_TOKEN: u32 = 255;

// A place in the file, and the number of its line. The file stands beside it as a slice, as the scope asks (docs/DECISIONS.md, 31), so that the place is in
// it (`Placed`) is asked of each line.
#[derive(Clone, Copy)]
pub struct Cursor {
    pub at: usize,
    pub line: u32,
}

// A number or a token inside a line, and the place behind it.
#[derive(Clone, Copy)]
pub struct Taken {
    pub value: u32,
    pub end: usize,
}

// What the entries of a list are: numbers, the first at most `first` and each other at most `rest`; or tokens, over so many symbols. An enum has no ghost
// field, so that the limits are bytes (`Limited`) is asked where a list is read.
#[derive(Clone, Copy)]
pub enum Sort {
    Numbers { first: u32, rest: u32 },
    Tokens { symbols: u32 },
}

// A number of n digits and value v takes no further digit: it has eight, or it is the digit 0.
#[tactic(auto, unfolding(crate::specs::Number::full))]
fn is_full(n: u32, v: u32) -> bool
    ensures { result ≡ full n v }
{
    DIGITS <= n || n != 0 && v == 0
}

// The number ends here, where it has begun.
#[tactic(auto, unfolding(crate::specs::Number::ended))]
fn end_number(n: u32, v: u32, at: usize) -> Option<Taken>
    ensures { result ≡ ended n v at }
{
    if n == 0 {
        return None;
    }
    Some(Taken { value: v, end: at })
}

// The number at `from`: 1 to 8 digits, with no leading zero.
#[tactic(auto, using(crate::proofs::NumberLaws::number_end, crate::proofs::NumberLaws::number_stop, crate::proofs::NumberLaws::number_full))]
pub fn number(file: &[u8], from: usize) -> Option<Taken>
    ensures { result ≡ number_from 0 0 from (drop from file.now) }
{
    let mut n: u32 = 0;
    let mut v: u32 = 0;
    for at in from..file.len() {
        let b = file[at];
        if !b.is_ascii_digit() {
            return end_number(n, v, at);
        }
        if is_full(n, v) {
            return None;
        }
        v = v * 10 + (b - b'0') as u32;
        n += 1;
    }
    end_number(n, v, file.len())
}

// A token's number as its byte, where such tokens have the `count` bytes from `first` on.
#[tactic(auto, unfolding(crate::specs::Value::coded_as))]
fn coded_as(count: u32, first: u32, number: Option<Taken>) -> Option<Taken>
    requires { first + count ≤ 255 }
    ensures { result ≡ coded_as count first number }
{
    let Taken { value, end } = number?;
    let value = if value < count {
        first + value
    } else {
        NO_TOKEN
    };
    Some(Taken { value, end })
}

// The token at a place, as its byte.
#[tactic(auto, using(crate::proofs::TokenLaws::token_end, crate::proofs::TokenLaws::token_variable, crate::proofs::TokenLaws::token_symbol))]
fn token(file: &[u8], at: usize) -> Option<Taken>
    ensures { result ≡ entry_at 1 at (drop at file.now) }
{
    if file.len() <= at {
        return None;
    }
    if file[at] == b'x' {
        return coded_as(VARIABLES as u32, VARIABLE as u32, number(file, at + 1));
    }
    coded_as(SYMBOLS as u32, 0, number(file, at))
}

// The entry of a list at a place.
#[tactic(auto, unfolding(crate::specs::Value::entry_at, crate::specs::Value::sort_kind))]
pub fn entry(file: &[u8], at: usize, sort: Sort) -> Option<Taken>
    ensures { result ≡ entry_at (sort_kind sort) at (drop at file.now) }
{
    match sort {
        Sort::Numbers { .. } => number(file, at),
        Sort::Tokens { .. } => token(file, at),
    }
}

// Whether a line ends at or after `from`.
#[tactic(auto, using(crate::proofs::LineLaws::ends_in, crate::proofs::LineLaws::ends_not))]
fn has_end(file: &[u8], from: usize) -> bool
    ensures { result ≡ has_end (drop from file.now) }
{
    from < file.len() && file[from..].contains(&b'\n')
}

// The reason why a value at `at` is refused: where its line has no LF, the line is missing, before any fault of its value's form.
#[tactic(auto, unfolding(crate::specs::Line::unended))]
pub fn reason_at(file: &[u8], at: usize, reason: Reason) -> Reason
    ensures { result ≡ unended reason (drop at file.now) }
{
    if reason == Reason::NoValue && !has_end(file, at) {
        return Reason::NoLine;
    }
    reason
}

impl Cursor {
    // A refusal on this line.
    pub fn refuse(self, reason: Reason) -> Refusal
        ensures { result ≡ refuse self.line reason }
    {
        Refusal::on_line(reason, self.line)
    }

    // The next line, which begins at `at`.
    pub fn next(self, at: usize) -> Cursor
        requires { self.line < u32.MAX }
        ensures { result ≡ record { at = at; line = self.line + 1 } }
    {
        Cursor {
            at,
            line: self.line + 1,
        }
    }

    // The place of the line's value, where the line begins with its key.
    #[tactic(auto, using(crate::proofs::LineLaws::key_in, crate::proofs::LineLaws::key_past, std::proofs::lemmas::List::take_all))]
    pub fn open(self, file: &[u8], kind: Kind) -> Option<usize>
        ensures { result ≡ after_key (key_at kind) self.at (drop self.at file.now) }
    {
        let key = kind.key();
        if self.at <= file.len() && file[self.at..].starts_with(key) {
            return Some(self.at + key.len());
        }
        None
    }
}
