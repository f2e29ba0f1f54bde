// Why a step of the reduction is refused: the faults with their values, and the tests that find them, over a step's arguments
// alone. `specs/` gives each fault its number and says which step meets which, in which order.
#![tactic(auto)]

pub mod faults;
pub mod steps;
mod words;
