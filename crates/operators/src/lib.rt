// The paper's operators: their numbers (numbers) and types (types); on cells, what two cells are (pairs), truth values (logic) and
// each operator (operators). Every result is a definition of crate `paper`, for all cells.
#![tactic(auto)]

pub mod logic;
pub mod numbers;
pub mod operators;
pub mod pairs;
pub mod types;
