// Bytes, numbers and classes written into a lent buffer.
#![tactic(auto)]

mod put;

pub use put::{put_bytes, put_classes, put_decimal};
