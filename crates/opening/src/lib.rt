// The opening of a packed table and its batching, as types: `BitRingSwitch`, a point with a view or none, and `BitRingSwitchBatch`, the
// batching weights and the challenge of an opening. Each holds what every step over it needs to know.
#![tactic(auto)]

pub mod batch;
pub mod bit_ring_switch;
mod prefix;
