// Lists of numbers or tokens, parted by commas.
ghost use Rattle.std.specs.Prelude.{◌≡◌, ◌<◌, ◌^◌, length, drop};
ghost use Rattle.fields.specs.Value.{entries_from, value_of, sort_kind};
ghost use Rattle.fields.specs.Line.{line_row};
ghost use Rattle.fields.specs.Lines.{items_of, entry_line, few_check, checked};
ghost use Rattle.fields.specs.Listed.{exceeds as is_beyond, seen_none, seen_with, kept, done, list_of, Limited};
ghost use Rattle.fields.specs.Said.{Placed};

use crate::cursor::{Cursor, Sort, Taken, entry, reason_at};
use crate::rows::Kind;
use tables::{LAST_VARIABLE, VARIABLE};
use verdicts::{Reason, Refusal};

// How many entries of a list are kept; more than any line may have.
pub const ROOM: usize = 64;

// The entries of a list: the first 64 of them, how many there are (no heap: the array has room for the most that a line may have), and whether each is above
// the one before.
#[derive(Clone, Copy)]
pub struct Items {
    pub items: [u8; ROOM],
    pub count: usize,
    pub ascending: bool,
}

// What is known of the entries that were read so far.
#[derive(Clone, Copy)]
struct Seen {
    count: usize,
    last: u32,
    over: bool,
    ascending: bool,
}

// Whether an entry, perhaps the first of its line, is past its limit.
#[tactic(auto, unfolding(crate::specs::Listed::exceeds))]
fn exceeds(sort: Sort, begins: bool, value: u32) -> bool
    ensures { result ≡ is_beyond sort begins value }
{
    match sort {
        Sort::Numbers { first, rest } => {
            let most = if begins { first } else { rest };
            most < value
        }
        Sort::Tokens { symbols } => {
            symbols <= value
                && (value < VARIABLE as u32 || VARIABLE as u32 + (LAST_VARIABLE as u32) < value)
        }
    }
}

impl Seen {
    // Nothing is read yet.
    #[tactic(auto, unfolding(crate::specs::Listed::seen_none))]
    fn none() -> Seen
        ensures { result ≡ seen_none }
    {
        Seen {
            count: 0,
            last: 0,
            over: false,
            ascending: true,
        }
    }

    // What is known with one more entry.
    #[tactic(auto, unfolding(crate::specs::Listed::seen_with))]
    fn with(self, sort: Sort, value: u32) -> Seen
        requires { self.count < 2 ^ 63 }
        ensures { result ≡ seen_with sort self value }
    {
        let begins = self.count == 0;
        Seen {
            count: self.count + 1,
            last: value,
            over: self.over || exceeds(sort, begins, value),
            ascending: self.ascending && (begins || self.last < value),
        }
    }
}

// Keeps an entry where there is room for it and it is a byte.
#[tactic(auto, unfolding(crate::specs::Listed::kept))]
fn keep(items: &mut [u8; ROOM], i: usize, value: u32)
    requires { length items.old ≡ 64 }
    ensures { items.new ≡ kept items.old i value }
{
    if i < ROOM && value < 256 {
        items[i] = value as u8;
    }
}

// What is handed over at the end of a value.
#[tactic(auto, unfolding(crate::specs::Listed::done))]
fn finish_list(s: Seen, items: [u8; ROOM], next: Cursor) -> Result<(Items, Cursor), Reason>
    ensures { result ≡ done s items next }
{
    if s.over {
        return Err(Reason::OutOfRange);
    }
    let it = Items {
        items,
        count: s.count,
        ascending: s.ascending,
    };
    Ok((it, next))
}

impl Cursor {
    // The entries of a list that has one at least, from `from` on.
    #[tactic(auto, using(crate::proofs::ListLaws::turn_fault, crate::proofs::ListLaws::turn_lf))]
    fn entries(self, file: &[u8], from: usize, sort: Sort) -> Result<(Items, Cursor), Reason>
        requires placed { Placed file.now self }
        requires limited { Limited sort × (from < length file.now) }
        ensures { result ≡ list_of self.line sort (entries_from (sort_kind sort) 0 0 from (drop from file.now)) }
    {
        let mut at = from;
        let mut seen = Seen::none();
        let mut items = [0u8; ROOM];
        // No index is counted here: the cursor jumps from one entry's end to the next.
        loop {
            let Some(Taken { value, end }) = entry(file, at, sort) else {
                return Err(Reason::NoValue);
            };
            keep(&mut items, seen.count, value);
            seen = seen.with(sort, value);
            if file.len() <= end {
                return Err(Reason::NoValue);
            }
            let b = file[end];
            if b == b'\n' {
                return finish_list(seen, items, self.next(end + 1));
            }
            if b != b',' {
                return Err(Reason::NoValue);
            }
            at = end + 1;
        }
    }

    // The value of a list, from its first byte to its LF.
    #[tactic(auto, using(crate::proofs::ListLaws::list_end, crate::proofs::ListLaws::list_empty, crate::proofs::ListLaws::list_entries))]
    fn list(self, file: &[u8], at: usize, sort: Sort) -> Result<(Items, Cursor), Reason>
        requires placed { Placed file.now self }
        requires limited { Limited sort }
        ensures { result ≡ list_of self.line sort (value_of (sort_kind sort) at (drop at file.now)) }
    {
        if file.len() <= at {
            return Err(Reason::NoValue);
        }
        if file[at] == b'\n' {
            return finish_list(Seen::none(), [0u8; ROOM], self.next(at + 1));
        }
        self.entries(file, at, sort)
    }

    // A whole list line: its key, its value and its LF.
    #[tactic(auto, using(crate::proofs::LinesLaws::whole_line), unfolding(crate::specs::Line::code_row))]
    pub fn list_line(self, file: &[u8], kind: Kind, sort: Sort) -> Result<(Items, Cursor), Refusal>
        requires placed { Placed file.now self }
        requires limited { Limited sort }
        ensures { result ≡ items_of self.line (entry_line sort (line_row kind) file.now self.at) }
    {
        let Some(at) = self.open(file, kind) else {
            return Err(self.refuse(Reason::NoLine));
        };
        let (it, next) = self
            .list(file, at, sort)
            .map_err(|reason| self.refuse(reason_at(file, at, reason)))?;
        if it.count == 0 && !kind.row().empty {
            return Err(self.refuse(Reason::NoValue));
        }
        Ok((it, next))
    }

    // A list line of at most as many entries as its row allows.
    #[tactic(auto, using(crate::proofs::LinesLaws::counted_line), unfolding(crate::specs::Line::code_row))]
    pub(crate) fn few_line(
        self,
        file: &[u8],
        kind: Kind,
        sort: Sort,
    ) -> Result<(Items, Cursor), Refusal>
        requires placed { Placed file.now self }
        requires limited { Limited sort }
        ensures { result ≡ items_of self.line
            (checked (few_check (line_row kind).most) (entry_line sort (line_row kind) file.now self.at)) }
    {
        let (it, next) = self.list_line(file, kind, sort)?;
        if (kind.row().entries as usize) < it.count {
            return Err(self.refuse(Reason::WrongCount));
        }
        Ok((it, next))
    }
}
