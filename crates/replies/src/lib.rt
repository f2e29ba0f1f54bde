// What a program replies to an input, whichever way it computes the report, and the programs that print such replies.
#![tactic(auto)]

pub mod program;
pub mod reply;
pub mod reporter;
