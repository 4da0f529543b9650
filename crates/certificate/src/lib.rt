// The reader of a certificate: file to tables and merging, or a refusal. The public reading goes through a view of the lent file.
#![tactic(auto)]

ghost use Rattle.std.specs.Prelude.{◌≡◌, ◌+◌, ◌≤◌, ◌<◌, length, drop};
ghost use Rattle.paper.specs.Limits.{most_bytes, most_states};
ghost use Rattle.paper.specs.Format.{read_file};
ghost use Rattle.fields.specs.Said.{Placed};
ghost use Rattle.blocks.specs.Draft.{draft};
ghost use Rattle.blocks.specs.Packed.{tables_of};
ghost use Rattle.blocks.specs.Handed.{Handed};
ghost use Rattle.certificate.specs.Read.{read_of, too_long, last_lines, HandedLast, place_of, HandedView};

pub mod merging;
pub mod opening;

use fields::cursor::Cursor;
use merging::read_merge;
use opening::read_tables;
use tables::{Certificate, Merging, Tables};
use verdicts::{Reason, Refusal};
use view::{View, left_at};

// How many bytes a file may have.
const BYTES: usize = 16384;

// The tables from a place on, of a file that is not too long.
fn opening_at(file: &[u8], at: usize, line: u32) -> Result<(Tables, Cursor), Refusal>
    requires { (at ≤ length file.now) × (line ≤ at + 1) }
    ensures long { most_bytes < length file.now → result ≡ Err too_long }
    ensures fits { length file.now ≤ most_bytes → Handed file.now tables_of (draft line (drop at file.now)) result }
{
    if BYTES < file.len() {
        return Err(Refusal {
            reason: Reason::TooLong,
            line: None,
        });
    }
    read_tables(Cursor { at, line }, file)
}

// The line `merge` at a place, for this many states, and the end of the file.
fn closing_at(file: &[u8], at: usize, line: u32, states: usize) -> Result<Merging, Refusal>
    requires { (states ≤ most_states) × Placed file.now (record { at = at; line = line }) }
    ensures { HandedLast (last_lines states line (drop at file.now)) result }
{
    let (merging, end) = read_merge(Cursor { at, line }, file, states)?;
    if 0 < left_at(file, end.at) {
        return Err(Refusal::on_line(Reason::NoLine, end.line));
    }
    Ok(merging)
}

// The tables that a view has before it, and the view behind them.
pub fn read_opening<'a>(v: View<'a>) -> Result<(Tables, View<'a>), Refusal>
    requires { (v.at ≤ length v.file.now) × (v.line ≤ v.at + 1) }
    ensures long { most_bytes < length v.entry.file.now → result ≡ Err too_long }
    ensures fits { length v.entry.file.now ≤ most_bytes → HandedView v.entry result }
{
    let (tables, next) = opening_at(v.file, v.at, v.line)?;
    Ok((tables, v.go_on(next)))
}

// The line `merge` that a view has before it, for this many states, and the end.
pub fn read_closing<'a>(v: View<'a>, states: usize) -> Result<Merging, Refusal>
    requires { (states ≤ most_states) × Placed v.file.now (place_of v) }
    ensures { HandedLast (last_lines states v.entry.line (drop v.entry.at v.entry.file.now)) result }
{
    closing_at(v.file, v.at, v.line, states)
}

// A certificate file, of at most 16,384 bytes, through a view that goes on from its start to its `merge`.
pub fn read(file: &[u8]) -> Result<Certificate, Refusal>
    ensures { result ≡ read_of (read_file file.now) }
{
    let (tables, v) = read_opening(View::over(file))?;
    let merging = read_closing(v, tables.initial.states)?;
    Ok(Certificate { tables, merging })
}
