// Lists of elements and of bytes as text, and what is wrong with a text that writes none.
#![tactic(auto)]

pub mod bytes;
pub mod called;
pub mod elements;
