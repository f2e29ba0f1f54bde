// What the program `explain` prints: the values of an opening, one a line, each computed plainly by its definition.
// The steps of the reduction are taken in turn, until one is refused.
#![tactic(auto)]

pub mod explain;
pub mod report;
mod step_lines;
pub mod steps;
