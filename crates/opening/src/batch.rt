ghost use Rattle.std.specs.Prelude.{◌≡◌, is_some};
ghost use Rattle.ring_switch.specs.Opening.{kept};

use crate::bit_ring_switch::BitRingSwitch;
use coordinates::per_coordinate::PerCoordinate;
use level::level::Level;

// The reduction once batched, as `BitRingSwitchBatch` of p3-sumcheck's reduction.rs: the opening, the equality table of the batching point,
// which is a weight for each row of a tensor, and the challenge, given exactly where successor tensors are sent.
#[derive(Drop)]
pub struct BitRingSwitchBatch<'a, L: Level> {
    pub reduction: BitRingSwitch<'a, L>,
    pub eq_batch: PerCoordinate<'a, L>,
    pub alpha: Option<L>,
    pub ghost challenged: { is_some alpha ≡ is_some (kept L.Level.log reduction.view) },
}
