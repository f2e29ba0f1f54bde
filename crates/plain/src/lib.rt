// The values of the reduction, each computed straight from its definition: no tensors and no tables.
// The program `explain` prints them; they serve small tables as they are.
#![tactic(auto)]

pub mod batching;
pub mod cells;
pub mod points;
pub mod subsets;
mod sums;
pub mod values;
