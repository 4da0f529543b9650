// The line `merge`, for as many states as the tables have.
ghost use Rattle.std.specs.Prelude.{◌≡◌, ◌≤◌, drop};
ghost use Rattle.theory.specs.Automaton.{classes as class_count};
ghost use Rattle.paper.specs.Limits.{most_states};
ghost use Rattle.fields.specs.Said.{Placed};
ghost use Rattle.blocks.specs.Packed.{merging_of};
ghost use Rattle.blocks.specs.Draft.{merge_line};
ghost use Rattle.blocks.specs.Handed.{Handed};

use fields::cursor::Cursor;
use tables::Merging;
use verdicts::Refusal;

// The number of classes: the largest entry plus one.
fn count_classes(items: &[u8]) -> usize
    ensures { result ≡ class_count items.now }
{
    items.iter().copied().max().unwrap_or(0) as usize + 1
}

// A line `merge` for this many states.
#[tactic(auto, using(blocks::proofs::Chain::answer_whole))]
pub fn read_merge(c: Cursor, file: &[u8], states: usize) -> Result<(Merging, Cursor), Refusal>
    requires { (states ≤ most_states) × Placed file.now c }
    ensures { Handed file.now merging_of (merge_line states c.line (drop c.at file.now)) result }
{
    let (it, next) = c.merge_line(file, states)?;
    let merging = Merging {
        classes: count_classes(&it.items[..it.count]),
        merge: it.items,
    };
    Ok((merging, next))
}
