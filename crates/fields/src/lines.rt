// The fixed lines, with the limits that their rows give, and the lines of terms.
ghost use Rattle.std.specs.Prelude.{◌≡◌, ◌≤◌, length, drop};
ghost use Rattle.paper.specs.Limits.{most_states, last_state, most_arity, most_symbols};
ghost use Rattle.paper.specs.Certificate.{Kind as PaperKind};
ghost use Rattle.paper.specs.Format.{fixed};
ghost use Rattle.paper.specs.Tables.{arity_list, final_list, class_list};
ghost use Rattle.fields.specs.Said.{Placed, FieldLine, Listing, FinalKind};
ghost use Rattle.fields.specs.Line.{Fixed, kind_of, line_row};
ghost use Rattle.fields.specs.Lines.{items_of, entry_line, few_check, checked};
ghost use Rattle.fields.specs.Merge.{numbered};
ghost use Rattle.fields.specs.declared.cursor.Sort.TheVariants.{Tokens};

use crate::cursor::{Cursor, Sort, Taken, number, reason_at};
use crate::lists::Items;
use crate::rows::Kind;
use verdicts::{Reason, Refusal};

impl Cursor {
    // A whole line of one number in its row's range.
    pub fn number_line(self, file: &[u8], kind: Kind) -> Result<(u32, Cursor), Refusal>
        requires kind_bound { Fixed kind }
        requires placed { Placed file.now self }
        ensures { FieldLine file.now (kind_of kind) self result }
    {
        let Some(at) = self.open(file, kind) else {
            return Err(self.refuse(Reason::NoLine));
        };
        let Some(Taken { value, end }) = number(file, at) else {
            return Err(self.refuse(reason_at(file, at, Reason::NoValue)));
        };
        if file.len() <= end || file[end] != b'\n' {
            return Err(self.refuse(reason_at(file, at, Reason::NoValue)));
        }
        let row = kind.row();
        if value < row.least || row.greatest < value {
            return Err(self.refuse(Reason::OutOfRange));
        }
        Ok((value, self.next(end + 1)))
    }

    // `final` and `badfinal`: states of an automaton, strictly ascending. Each is in its row's range and below `states`.
    #[tactic(auto, unfolding(crate::specs::Listed::Limited))]
    pub fn final_line(
        self,
        file: &[u8],
        kind: Kind,
        states: u32,
    ) -> Result<(Items, Cursor), Refusal>
        requires kind_bound { Fixed kind × FinalKind (kind_of kind) }
        requires le_states { (1 ≤ states) × (states ≤ most_states) }
        requires placed { Placed file.now self }
        ensures { Listing file.now last_state self.line
            (fixed (kind_of kind) (λ K. final_list K states) self.line (drop self.at file.now)) result }
    {
        let most = kind.row().greatest.min(states - 1);
        let sort = Sort::Numbers {
            first: most,
            rest: most,
        };
        let (it, next) = self.list_line(file, kind, sort)?;
        if !it.ascending {
            return Err(self.refuse(Reason::Unordered));
        }
        Ok((it, next))
    }

    // `arities`.
    #[tactic(auto, unfolding(crate::specs::Listed::Limited, crate::specs::Line::code_row, paper::specs::Certificate::row))]
    pub fn arities_line(self, file: &[u8]) -> Result<(Items, Cursor), Refusal>
        requires { Placed file.now self }
        ensures { Listing file.now most_arity self.line
            (fixed PaperKind.Arities (λ K. arity_list) self.line (drop self.at file.now)) result }
    {
        let most = Kind::Arities.row().greatest;
        let sort = Sort::Numbers {
            first: most,
            rest: most,
        };
        self.few_line(file, Kind::Arities, sort)
    }
}

// Whether each number is at most the number of classes before it.
fn is_numbered(items: &[u8]) -> bool
    requires { length items.now ≤ 64 }
    ensures { result ≡ numbered 0 items.now }
{
    let mut classes: u8 = 0;
    for c in items {
        if classes < *c {
            return false;
        }
        if *c == classes {
            classes += 1;
        }
    }
    true
}

impl Cursor {
    // `merge`: a class for each state, numbered as they come.
    #[tactic(auto, unfolding(crate::specs::Listed::Limited, crate::specs::Line::code_row, paper::specs::Certificate::row))]
    pub fn merge_line(self, file: &[u8], states: usize) -> Result<(Items, Cursor), Refusal>
        requires states_le_most_states { states ≤ most_states }
        requires placed { Placed file.now self }
        ensures { Listing file.now last_state self.line
            (fixed PaperKind.Merge (λ K. class_list states) self.line (drop self.at file.now)) result }
    {
        let most = Kind::Merge.row().greatest;
        let sort = Sort::Numbers {
            first: most,
            rest: most,
        };
        let (it, next) = self.list_line(file, Kind::Merge, sort)?;
        if it.count != states {
            return Err(self.refuse(Reason::WrongCount));
        }
        if !is_numbered(&it.items[..states]) {
            return Err(self.refuse(Reason::Misnumbered));
        }
        Ok((it, next))
    }

    // A term of so many tokens at most as its row says, over so many symbols.
    #[tactic(auto, unfolding(crate::specs::Listed::Limited))]
    pub fn term_line(
        self,
        file: &[u8],
        kind: Kind,
        symbols: u32,
    ) -> Result<(Items, Cursor), Refusal>
        requires le_symbols { symbols ≤ most_symbols }
        requires placed { Placed file.now self }
        ensures { result ≡ items_of self.line
            (checked (few_check (line_row kind).most) (entry_line (Tokens symbols) (line_row kind) file.now self.at)) }
    {
        self.few_line(file, kind, Sort::Tokens { symbols })
    }
}
