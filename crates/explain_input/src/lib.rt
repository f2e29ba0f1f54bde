// The input of a program that explains an opening: lines of a key and a text, read into the parts that they give.
#![tactic(auto)]

pub mod fault;
pub mod input;
pub mod key;
mod lines;
mod number;
