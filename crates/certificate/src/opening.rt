// All lines before `merge`.
ghost use Rattle.std.specs.Prelude.{drop};
ghost use Rattle.fields.specs.Said.{Placed};
ghost use Rattle.blocks.specs.Packed.{tables_of};
ghost use Rattle.blocks.specs.Draft.{draft};
ghost use Rattle.blocks.specs.Handed.{Handed};

use blocks::automata::{BAD, INITIAL, read_table};
use blocks::rules::read_rules;
use fields::cursor::Cursor;
use fields::rows::Kind;
use fields::signature::Signature;
use tables::Tables;
use verdicts::Refusal;

// The tables from a place on, and the place of the line `merge` behind them.
#[tactic(auto, using(crate::proofs::TableLaws::opening_lines))]
pub fn read_tables(start: Cursor, file: &[u8]) -> Result<(Tables, Cursor), Refusal>
    requires { Placed file.now start }
    ensures { Handed file.now tables_of (draft start.line (drop start.at file.now)) result }
{
    let (budget, second) = start.number_line(file, Kind::Budget)?;
    let (listed, third) = second.arities_line(file)?;
    let signature = Signature {
        arities: &listed.items[..listed.count],
    };
    let (initial, bad_line) = read_table(third, file, INITIAL, signature)?;
    let (bad, count_line) = read_table(bad_line, file, BAD, signature)?;
    let (n, first_rule) = count_line.number_line(file, Kind::Rules)?;
    let (rules, next) = read_rules(first_rule, file, signature, n as usize)?;
    let tables = Tables {
        budget,
        symbols: listed.count,
        arities: listed.items,
        initial,
        bad,
        rules,
    };
    Ok((tables, next))
}
