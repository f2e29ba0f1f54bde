// The claims that tensors over lent rows answer: the incoming claim and the successor claim, each a sum of columns times weights.
// Columns and weights go through lent scratch of d elements each, d the level's width, which is left zero.
// A slice that is written keeps a clause on its length: a struct over it would owe, in each function that writes, a clause that it is still
// the same slice.
#![tactic(auto)]

mod by_columns;
pub mod incoming;
pub mod successor;
