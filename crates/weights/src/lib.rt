// The weights of a slot's packed elements: `settled` sums the batching weights of each equality entry through tables, a block at a time,
// `combined` adds what a challenge adds, and `weights` does both.
// A slice that is written keeps a clause on its length: a struct over it would owe, in each function that writes, a clause that it is still
// the same slice.
#![tactic(auto)]

pub mod combined;
pub mod settled;
pub mod weights;
