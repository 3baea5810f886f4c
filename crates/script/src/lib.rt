// For the program `examples`: a line of its script as numbers (`line`), what a command puts on the desk (`desk`, `make`), questions about
// a bundle and its arrays (`arrays`), JSON texts read into arrays (`sent`), and answers printed (`say`).
#![tactic(auto)]

pub mod arrays;
pub mod desk;
pub mod line;
pub mod make;
pub mod parts;
pub mod say;
pub mod sent;
