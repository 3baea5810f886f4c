// One cell: its nine bytes (bytes), INT (ints) and FLOAT (floats); and cells added up (sums, means). Each result is a definition of
// crate `paper`.
#![tactic(auto)]

pub mod bytes;
pub mod floats;
pub mod ints;
pub mod means;
pub mod sums;
