// The eight lines of an answer, written into a lent buffer.
#![tactic(auto)]

mod eight;
mod questions;
mod seven;
mod verdict;

pub use questions::{write_closure, write_sharing};
pub use verdict::write;
use verdicts::CriticalPair;

// What stands after a line's key: `-`, a number, or a critical pair's classes.
#[derive(Clone, Copy)]
pub enum Shown {
    Nothing,
    Number(u32),
    Classes(CriticalPair),
}

// The values of the seven lines after the first.
#[derive(Clone, Copy)]
pub struct Lines {
    pub refusal: Shown,
    pub line: Shown,
    pub rule: Shown,
    pub x: Shown,
    pub class: Shown,
    pub bad: Shown,
    pub examined: Shown,
}
