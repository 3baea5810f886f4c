// The parts of a JSON text, read from a byte on: where each ends, or where the text stops being JSON.
#![tactic(auto)]

pub mod bytes;
pub mod cells;
pub mod names;
pub mod numbers;
pub mod strings;
pub mod words;

// The byte with which the text stops being JSON.
#[derive(Clone, Copy)]
pub struct Fault(pub usize);
