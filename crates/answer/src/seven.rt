// What the seven lines after the first say for each kind of answer.
ghost use Rattle.std.specs.Prelude.{◌≡◌};
ghost use Rattle.paper.specs.Answer.{decimal, decimals, decimal_if, dash};
ghost use Rattle.verdicts.specs.Said.{classes_of};
ghost use Rattle.verdicts.specs.Refused.{number, said_line};
ghost use Rattle.answer.specs.Shown.{shown, seven_with, Says};

use crate::{Lines, Shown};
use verdicts::{CriticalPair, FinalPair, Refusal};

// A refusal's line: `-` where it has none.
#[tactic(auto, unfolding(crate::specs::Shown::shown, paper::specs::Answer::decimal_if, verdicts::specs::Refused::said_line))]
fn shown_line(line: Option<u32>) -> Shown
    ensures { shown result ≡ decimal_if (said_line line) }
{
    match line {
        Some(n) => Shown::Number(n),
        None => Shown::Nothing,
    }
}

impl Lines {
    // Seven lines that say nothing.
    const NOTHING: Lines = Lines {
        refusal: Shown::Nothing,
        line: Shown::Nothing,
        rule: Shown::Nothing,
        x: Shown::Nothing,
        class: Shown::Nothing,
        bad: Shown::Nothing,
        examined: Shown::Nothing,
    };

    // A refusal: its number and its line.
    pub fn refused(r: Refusal) -> Lines
        ensures { Says (seven_with (decimal (number r.reason)) (decimal_if (said_line r.line)) dash dash dash dash dash) result }
    {
        Lines {
            refusal: Shown::Number(r.reason.number() as u32),
            line: shown_line(r.line),
            ..Lines::NOTHING
        }
    }

    // A critical pair, and how many substitutions were examined.
    pub fn found(pair: CriticalPair, examined: u32) -> Lines
        ensures { Says (seven_with dash dash (decimal pair.rule) (decimals (classes_of pair)) (decimal pair.class) dash (decimal examined)) result }
    {
        Lines {
            rule: Shown::Number(pair.rule as u32),
            x: Shown::Classes(pair),
            class: Shown::Number(pair.class as u32),
            examined: Shown::Number(examined),
            ..Lines::NOTHING
        }
    }

    // A final pair that shares a tree, and what is said of the examined count.
    pub fn final_pair(shared: FinalPair, examined: Shown) -> Lines
        ensures { Says (seven_with dash dash dash dash (decimal shared.class) (decimal shared.bad) (shown examined)) result }
    {
        Lines {
            class: Shown::Number(shared.class as u32),
            bad: Shown::Number(shared.bad as u32),
            examined,
            ..Lines::NOTHING
        }
    }

    // Nothing but what is said of the examined count.
    pub fn only_examined(examined: Shown) -> Lines
        ensures { Says (seven_with dash dash dash dash dash dash (shown examined)) result }
    {
        Lines {
            examined,
            ..Lines::NOTHING
        }
    }
}
