// Equality tables of points in lent memory: whole, and held as the two factors that a table is the product of.
// `specs/` says what a slice holds once a table stands in it.
#![tactic(auto)]

pub mod factored;
pub mod table;
