// The reduction's operations for the benchmark, at each level that it measures, exported for a driver in Rust.
// `operations` has them at any level. A module for each level exports them there with their contracts: an exported C function takes no
// generic type, so the three differ only in the type and in the names.
#![tactic(auto)]

mod operations;
mod pile;
pub mod polynomial_byte;
pub mod tower_128;
pub mod tower_byte;
