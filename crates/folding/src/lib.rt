// Tensors of a slot. The tensor and the carry are folded block by block: the equality table is held in two factors, each block is summed
// against what all blocks share, and the block's own weight scales the columns of that sum once. The last has one term for each column.
// `specs/` says by which opening of a packed table a slot is meant, and `proofs/Openings` that its tensors are then those of the whole table.
// A slice that is written keeps a clause on its length: a struct over it would owe, in each function that writes, a clause that it is still
// the same slice.
#![tactic(auto)]

pub mod block;
pub mod carry;
pub mod last;
pub mod shifting;
pub mod slot_table;
pub mod tensor_fold;
