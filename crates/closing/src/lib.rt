// Both ends of the reduction's sumcheck over lent rows: the initial sum of the tensors that are sent, and the closing value at the
// point where the rounds end, through the equality, the carry and the last element.
// A slice that is written keeps a clause on its length: a struct over it would owe, in each function that writes, a clause that it is still
// the same slice. That a closing point is as long as the slot is asked where both meet, since a point is no part of a batching.
#![tactic(auto)]

pub mod closing;
pub mod elements;
pub mod sums;
