// What a certificate holds, as the checker keeps it: plain numbers in flat arrays, so that nothing is copied where it is judged.
#![tactic(auto)]

mod certificate;

ghost use Rattle.std.specs.Prelude.{◌≡◌, get_or};

pub use certificate::Certificate;
use sets::WIDTH;

// How many states an automaton may have. The arrays have room for more: for as many as a mask has bits.
pub const STATES: usize = 32;

// How many there is room for: symbols, transitions of an automaton, rules. `proofs/Limits` has it that these are the scope's limits.
pub const SYMBOLS: usize = 64;

pub const TRANSITIONS: usize = 128;

pub const RULES: usize = 32;

// The largest arity, and how many variables a rule may have.
pub const ARITY: usize = 3;

pub const VARIABLES: usize = 4;

// The bytes of a transition: symbol, three arguments (0 for those that the symbol has not), target. And those of a whole table.
pub const ROW: usize = ARITY + 2;

pub const ROWS: usize = ROW * TRANSITIONS;

// The tokens of a side, and of a rule: the left side from token 0 on, the right side from token SIDE on.
pub const SIDE: usize = 24;

pub const RULE: usize = 2 * SIDE;

// The token of the variable x0. What is below is a symbol; the variable x has the token VARIABLE + x.
pub const VARIABLE: u8 = SYMBOLS as u8;

// The last variable's number.
pub const LAST_VARIABLE: u8 = VARIABLES as u8 - 1;

// One automaton, A or B. Its states are the numbers below `states`, and bit q of `finals` says that the state q is final.
// Transition i stands in the ROW bytes of `rows` from ROW * i on, for the first `count`: there is no heap, so the array has room for the most.
#[derive(Clone, Copy)]
pub struct Table {
    pub states: usize,
    pub finals: u64,
    pub count: usize,
    pub rows: [u8; ROWS],
}

// A rule: its left side's tokens from token 0 on and its right side's from token SIDE on, 0 behind each; how many tokens each side has, and how many
// variables the left side has.
#[derive(Clone, Copy)]
pub struct Rule {
    pub tokens: [u8; RULE],
    pub left: u8,
    pub right: u8,
    pub variables: u8,
}

// The rules: the first `count` of them. There is no heap, so the array has room for the most that there may be.
#[derive(Clone, Copy)]
pub struct Rules {
    pub count: usize,
    pub rules: [Rule; RULES],
}

// All of a certificate but its merging: the arities of the first `symbols` symbols, A, B, the rules and the budget.
#[derive(Clone, Copy)]
pub struct Tables {
    pub budget: u32,
    pub symbols: usize,
    pub arities: [u8; SYMBOLS],
    pub initial: Table,
    pub bad: Table,
    pub rules: Rules,
}

// The proposed merging: the class of each state of A, and how many classes there are.
#[derive(Clone, Copy)]
pub struct Merging {
    pub classes: usize,
    pub merge: [u8; WIDTH],
}

// The arity of the symbol f, and 0 where it is not listed.
pub fn arity(arities: &[u8], f: u8) -> u8
    ensures { result ≡ get_or arities.now f 0 }
{
    arities.get(f as usize).copied().unwrap_or(0)
}
