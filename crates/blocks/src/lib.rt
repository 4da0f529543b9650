// The blocks of a certificate: an automaton's lines, and the rules'.
#![tactic(auto)]

pub mod automata;
pub mod rules;
