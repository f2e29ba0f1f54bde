// Sums of exterior products over lent memory, gathered in buckets by the bytes of their left factors and read out row by row.
// Left and right factors are two slices of one length, since one list of left factors serves many blocks.
#![tactic(auto)]

pub mod buckets;
pub mod factors;
mod gathering;
mod reading;
