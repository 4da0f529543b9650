// The merged automaton: each transition with every state replaced by its class, and the final classes.
ghost use Rattle.std.specs.Prelude.{◌≡◌, ℕ, ◌*◌, ◌≤◌, ◌<◌, get_or};
ghost use Rattle.paper.specs.Limits.{most_transitions};
ghost use Rattle.sets.specs.Sets.{mem};
ghost use Rattle.judge.specs.Merged.{merged_byte, Merged, final_class};

use sets::{WIDTH, has, with};
use tables::{ROW, ROWS};

// The byte at `at` of the merged table: a symbol stays, a state becomes its class.
#[tactic(auto, unfolding(crate::specs::Merged::merged_byte))]
fn merged_byte<'a>(rows: &'a [u8; ROWS], merge: &'a [u8; WIDTH], at: usize) -> u8
    requires { (at < 640) × ((i : ℕ) → get_or rows.now i 0 < 64) × ((i : ℕ) → get_or merge.now i 0 < 64) }
    ensures { (result ≡ merged_byte rows.now merge.now at) × (result < 64) }
{
    let b = rows[at];
    if at % ROW == 0 {
        return b;
    }
    merge[b as usize]
}

// The first `count` rows merged; the rest is 0.
pub fn merged_rows<'a>(rows: &'a [u8; ROWS], merge: &'a [u8; WIDTH], count: usize) -> [u8; ROWS]
    requires { (count ≤ most_transitions) × ((i : ℕ) → get_or rows.now i 0 < 64) × ((i : ℕ) → get_or merge.now i 0 < 64) }
    ensures { Merged rows.now merge.now (count * 5) result }
{
    let mut bytes = [0u8; ROWS];
    for at in 0..count * ROW {
        bytes[at] = merged_byte(rows, merge, at);
    }
    bytes
}

// The classes with at least one final member.
pub fn final_classes(finals: u64, states: usize, merge: &[u8; WIDTH]) -> u64
    requires { (states ≤ 64) × ((i : ℕ) → get_or merge.now i 0 < 64) }
    ensures { mem result ≡ final_class finals merge.now states }
{
    let mut classes: u64 = 0;
    for q in 0..states {
        if has(finals, q as u64) {
            classes = with(classes, merge[q] as u64);
        }
    }
    classes
}
