// The reduction of a claim on a table of bits to a claim on its packing: definitions, and the theorems that join their readings.
// A theorem is the contract of a function that does nothing else.
#![tactic(auto)]

pub mod batching;
pub mod claims;
pub mod closing;
pub mod slot;
