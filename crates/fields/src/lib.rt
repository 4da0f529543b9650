// The fields of a certificate's lines: a cursor by value over the lent file, whose methods answer what was read and the next cursor, or
// the refusal.
#![tactic(auto)]

pub mod arrows;
pub mod cursor;
pub mod lines;
pub mod lists;
pub mod rows;
pub mod signature;
