// The table of lines: the ten fixed ones, and the four that come as often as a count says.
ghost use Rattle.std.specs.Prelude.{◌≡◌};
ghost use Rattle.fields.specs.Line.{row_at, key_at};

use tables::{ARITY, LAST_VARIABLE, ROW, RULES, SIDE, STATES, SYMBOLS, TRANSITIONS, VARIABLE};

// The kinds of lines, in the table's order: the fixed lines as they come, then transitions of A and of B, left sides and right sides.
#[derive(Clone, Copy, PartialEq, Eq)]
pub enum Kind {
    Budget,
    Arities,
    States,
    Final,
    Trans,
    BadStates,
    BadFinal,
    BadTrans,
    Rules,
    Merge,
    Transition,
    BadTransition,
    Left,
    Right,
}

// A row of the table: the least and the greatest number, how many entries at most, and whether none is allowed. In a line of tokens the numbers are
// the tokens' bytes.
#[derive(Clone, Copy)]
pub struct Row {
    pub least: u32,
    pub greatest: u32,
    pub entries: u32,
    pub empty: bool,
}

// The rows, by kind.
const ROWS: [Row; 14] = [
    Row {
        least: 0,
        greatest: 33554432,
        entries: 1,
        empty: false,
    },
    Row {
        least: 0,
        greatest: ARITY as u32,
        entries: SYMBOLS as u32,
        empty: false,
    },
    Row {
        least: 1,
        greatest: STATES as u32,
        entries: 1,
        empty: false,
    },
    Row {
        least: 0,
        greatest: STATES as u32 - 1,
        entries: STATES as u32,
        empty: true,
    },
    Row {
        least: 0,
        greatest: TRANSITIONS as u32,
        entries: 1,
        empty: false,
    },
    Row {
        least: 1,
        greatest: STATES as u32,
        entries: 1,
        empty: false,
    },
    Row {
        least: 0,
        greatest: STATES as u32 - 1,
        entries: STATES as u32,
        empty: true,
    },
    Row {
        least: 0,
        greatest: TRANSITIONS as u32,
        entries: 1,
        empty: false,
    },
    Row {
        least: 0,
        greatest: RULES as u32,
        entries: 1,
        empty: false,
    },
    Row {
        least: 0,
        greatest: STATES as u32 - 1,
        entries: STATES as u32,
        empty: false,
    },
    Row {
        least: 0,
        greatest: SYMBOLS as u32 - 1,
        entries: ROW as u32,
        empty: false,
    },
    Row {
        least: 0,
        greatest: SYMBOLS as u32 - 1,
        entries: ROW as u32,
        empty: false,
    },
    Row {
        least: 0,
        greatest: VARIABLE as u32 + LAST_VARIABLE as u32,
        entries: SIDE as u32,
        empty: false,
    },
    Row {
        least: 0,
        greatest: VARIABLE as u32 + LAST_VARIABLE as u32,
        entries: SIDE as u32,
        empty: false,
    },
];

impl Kind {
    // The line's row.
    #[tactic(auto, unfolding(crate::specs::Line::code_row, paper::specs::Certificate::row))]
    pub fn row(self) -> Row
        ensures { result ≡ row_at self }
    {
        ROWS[self as usize]
    }

    // The line's key with its `=`.
    pub fn key(self) -> &'static [u8]
        ensures { result.now ≡ key_at self }
    {
        match self {
            Kind::Budget => b"budget=",
            Kind::Arities => b"arities=",
            Kind::States => b"states=",
            Kind::Final => b"final=",
            Kind::Trans => b"trans=",
            Kind::BadStates => b"badstates=",
            Kind::BadFinal => b"badfinal=",
            Kind::BadTrans => b"badtrans=",
            Kind::Rules => b"rules=",
            Kind::Merge => b"merge=",
            Kind::Transition => b"t=",
            Kind::BadTransition => b"u=",
            Kind::Left => b"l=",
            Kind::Right => b"r=",
        }
    }
}
