// The lines of a report: the values of an opening, one a line, until a step is refused.
// What a whole report is, whichever way its values are computed, is said in specs/Report.antt.
#![tactic(auto)]

pub mod closings;
pub mod finish;
pub mod lines;
pub mod stop;
pub mod values;
pub mod variables;
