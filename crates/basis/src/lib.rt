// Sums of one weight for each coordinate that an element has set, through tables over lent memory.
#![tactic(auto)]

pub mod coordinate_sums;
