// The tensor algebra of a level over lent rows, a slice of d elements with row u at place u, d the level's width: sums of exterior products,
// scalings of rows and columns, and the tensors of two points. Scratch is lent too, slices of d elements, which are left zero.
// The two legs of an exterior product are two arguments, as the factors of a product are, and so are two points of one length.
#![tactic(auto)]

pub mod bit_tensor;
mod equality;
mod rows;
mod successor;
pub mod successor_tensors;
