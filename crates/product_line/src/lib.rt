// A line of text that asks for the product of two elements of a level named by its letter, and the answer to it.
#![tactic(auto)]

pub mod letter;
pub mod line;
