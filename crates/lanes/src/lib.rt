// Batches of substitutions: up to 512, one to a lane, that differ in a rule's last two variables. What is asked of a rule's tokens (`Judgeable`) holds the
// terms that stand there, which a ghost field does not take; what is asked of the lent rows and of a prefix (`Roomy`, `Prefix`) is said of them and of the
// automaton.
#![tactic(auto)]

pub mod batch;
pub mod opening;
pub mod prefixes;
pub mod sides;
pub mod variables;
