// One step of a recipe in parts, each against one definition of the paper: the operation that its bytes name, the bytes that it does not
// use, its types, what two arrays differ in first, what lies inside A, and the type and extent of its result.
#![tactic(auto)]

pub mod agreeing;
pub mod operation;
pub mod tests;
pub mod unused;

use paper::{Operation, Version};

// A step's operation, operands and axis index, the byte of the recipe at which its detail begins, and the version that the detail has the
// bytes of.
#[derive(Clone, Copy)]
pub struct StepHead {
    pub operation: Operation,
    pub a: u8,
    pub b: u8,
    pub axis: u8,
    pub at: usize,
    pub version: Version,
}
