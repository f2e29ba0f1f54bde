// Two levels of eight coordinates, each held in one byte: the tower byte, with the arithmetic of three doublings over the bit,
// and the polynomial byte, with that of FIPS 197.
#![tactic(auto)]

pub mod agreement;
pub mod bits;
pub mod combine;
pub mod polynomial_byte;
pub mod tower;
