// The quick loop in front of the loop over cells: a step of operation 9 to 12 worked out up to the first cell that refuses (cells),
// entered with a constant for each code, so that each operator has a loop of its own (codes); and where its operands lie (operands).
#![tactic(auto)]

pub mod cells;
pub mod codes;
pub mod operands;
