// An automaton's lines, for A and for B: states, final states, and the transitions as five bytes each.
ghost use Rattle.std.specs.Prelude.{◌≡◌, ℕ, ◌≤◌, ◌<◌, get_or, drop, false};
ghost use Rattle.paper.specs.Limits.{most_states, most_transitions};
ghost use Rattle.paper.specs.Tables.{transition};
ghost use Rattle.paper.specs.Format.{line_of, times};
ghost use Rattle.fields.specs.Line.{kind_of, line_row};
ghost use Rattle.fields.specs.Said.{Placed};
ghost use Rattle.blocks.specs.Packed.{mask_from, packed_rows, table_of};
ghost use Rattle.blocks.specs.Draft.{automaton};
ghost use Rattle.blocks.specs.Handed.{Handed, AutomatonKinds};

use fields::cursor::Cursor;
use fields::rows::Kind;
use fields::signature::Signature;
use sets::with;
use tables::{ROW, ROWS, Table};
use verdicts::Refusal;

// The kinds of an automaton's lines: the number of its states, its final states, the number of its transitions, and a transition.
#[derive(Clone, Copy)]
pub struct TableKinds {
    pub states: Kind,
    pub finals: Kind,
    pub count: Kind,
    pub row: Kind,
}

// A's lines.
pub const INITIAL: TableKinds = TableKinds {
    states: Kind::States,
    finals: Kind::Final,
    count: Kind::Trans,
    row: Kind::Transition,
};

// B's lines.
pub const BAD: TableKinds = TableKinds {
    states: Kind::BadStates,
    finals: Kind::BadFinal,
    count: Kind::BadTrans,
    row: Kind::BadTransition,
};

// The mask of these states.
fn mask_of(states: &[u8]) -> u64
    requires { (k : ℕ) → get_or states.now k 0 < 64 }
    ensures { result ≡ mask_from 0 states.now }
{
    let mut mask: u64 = 0;
    for q in states {
        mask = with(mask, *q as u64);
    }
    mask
}

// The rows of the n transitions from `start` on, each on a line of this kind.
fn transitions(
    start: Cursor,
    file: &[u8],
    kind: Kind,
    signature: Signature,
    states: u32,
    n: usize,
) -> Result<([u8; ROWS], Cursor), Refusal>
    requires entries { (line_row kind).empty ≡ false }
    requires le_states { (1 ≤ states) × (states ≤ most_states) }
    requires n_bound { n ≤ most_transitions }
    requires placed { Placed file.now start }
    ensures { Handed file.now packed_rows
        (times n (line_of (line_row kind).key (transition signature.entry.arities.now states)) start.line (drop start.at file.now)) result }
{
    let mut c = start;
    let mut rows = [0u8; ROWS];
    for i in 0..n {
        let (t, next) = c.trans_line(file, kind, signature, states)?;
        let at = ROW * i;
        rows[at..at + ROW].copy_from_slice(&[t.symbol, t.a, t.b, t.c, t.target]);
        c = next;
    }
    Ok((rows, c))
}

// The lines of an automaton.
#[tactic(auto, using(crate::proofs::Blocks::table_lines))]
pub fn read_table(
    c: Cursor,
    file: &[u8],
    kinds: TableKinds,
    signature: Signature,
) -> Result<(Table, Cursor), Refusal>
    requires kinds { AutomatonKinds kinds }
    requires placed { Placed file.now c }
    ensures { Handed file.now table_of
        (automaton (kind_of kinds.states) (kind_of kinds.finals) (kind_of kinds.count) (line_row kinds.row).key
        signature.entry.arities.now c.line (drop c.at file.now)) result }
{
    let (states, second) = c.number_line(file, kinds.states)?;
    let (finals, third) = second.final_line(file, kinds.finals, states)?;
    let (n, first_row) = third.number_line(file, kinds.count)?;
    let count = n as usize;
    let (rows, next) = transitions(first_row, file, kinds.row, signature, states, count)?;
    let table = Table {
        states: states as usize,
        finals: mask_of(&finals.items[..finals.count]),
        count,
        rows,
    };
    Ok((table, next))
}
