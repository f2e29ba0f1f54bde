// What the program `reduce` prints: the lines of the program `explain`, their values formed over one stretch of elements, which is
// lent from step to step.
#![tactic(auto)]

mod lines;
mod opened_problem;
pub mod reduce;
pub mod report;
mod steps;
