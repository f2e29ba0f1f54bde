// What an input asks to be explained: its texts read at a level.
// An input is read whole, or refused by one line that says why; a want of memory is told apart.
#![tactic(auto)]

pub mod errors;
pub mod problem;
pub mod reading;
