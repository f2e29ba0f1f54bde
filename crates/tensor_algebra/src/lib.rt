// The tensor algebra of a level: exterior products, rows and columns, scalings, and sums over set coordinates.
// A theorem is the contract of a function that does nothing else.
#![tactic(auto)]

pub mod buckets;
pub mod legs;
pub mod subsets;
