ghost use Rattle.std.specs.Prelude.{◌≡◌};
ghost use Rattle.multilinear.specs.Lent.{lent};
ghost use Rattle.ring_switch.specs.Batching.{successor_rows};
ghost use Rattle.tensor.specs.SuccessorTensors.{carry_of, last_of};
ghost use Rattle.closing.specs.Ends.{initial_sum_of};

use coordinates::per_coordinate::PerCoordinate;
use level::level::Level;
use opening::batch::BitRingSwitchBatch;
use tensor::successor_tensors::SuccessorTensors;

// The successor share of either end: α·rows(carry) + α²·rows(last), zero where none are given.
pub fn successor_rows<L: Level>(
    eq_batch: PerCoordinate<L>,
    alpha: L,
    successor: Option<SuccessorTensors<L>>,
) -> L
    ensures { L.means result ≡ successor_rows L.arithmetic (lent L.means eq_batch.entry.elements.now) (L.means alpha) (carry_of successor.entry) (last_of successor.entry) }
{
    match successor {
        None => L::zero(),
        Some(successor) => {
            let carry = successor.carry.batch_rows(eq_batch);
            let last = successor.last.batch_rows(eq_batch);
            alpha.mul(carry.add(alpha.mul(last)))
        }
    }
}

// The initial sum: the batched rows of the tensor and, where there is a challenge, of the carry and the last. Where no carry and last are
// given they are zero.
pub fn initial_sum<L: Level>(
    batch: &BitRingSwitchBatch<L>,
    tensor: PerCoordinate<L>,
    successor: Option<SuccessorTensors<L>>,
) -> L
    ensures { L.means result ≡ initial_sum_of L.Level batch.now (lent L.means tensor.entry.elements.now) (carry_of successor.entry) (last_of successor.entry) }
{
    let sum = tensor.batch_rows(batch.eq_batch);
    match batch.alpha {
        None => sum,
        Some(alpha) => sum.add(successor_rows(batch.eq_batch, alpha, successor)),
    }
}
