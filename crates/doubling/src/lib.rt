// The bit, which is the smallest level, and the doubling, which makes a level of twice as many coordinates from any level.
// A pile of doublings, as `Doubling<Doubling<Bit>>`, is a level with no further argument.
#![tactic(auto)]

pub mod bit;
pub mod doubling;
