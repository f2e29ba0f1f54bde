ghost use Rattle.std.specs.Prelude.{◌≡◌, ◌*◌, map, length};
ghost use Rattle.level.specs.Element.{width};
ghost use Rattle.multilinear.specs.Equality.{multilinear};
ghost use Rattle.multilinear.specs.Lent.{lent};
ghost use Rattle.tensor_algebra.specs.Tensor.{nothing, batch_rows, equality_element};
ghost use Rattle.opening.specs.Batches.{rows_of, weights_of};
ghost use Rattle.closing.specs.Ends.{slot_of, successor_share_of, closing_value_of};

use crate::elements::{carry_element, last_element};
use crate::sums::successor_rows;
use coordinates::clear;
use coordinates::per_coordinate::PerCoordinate;
use level::level::Level;
use opening::batch::BitRingSwitchBatch;
use tensor::bit_tensor::BitTensor;
use tensor::successor_tensors::SuccessorTensors;

// The batched rows of the equality element of the slot and a closing point.
fn equality_rows<L: Level>(
    batch: &BitRingSwitchBatch<L>,
    z: &[L],
    rows: &mut [L],
    scratch: &mut [L],
) -> L
    requires point { length z.now ≡ length (slot_of L.Level batch.now) }
    requires rows { length rows.old ≡ width L.Level.log }
    requires scratch { length scratch.old ≡ width L.Level.log }
    ensures { L.means result ≡ batch_rows L.arithmetic (rows_of L.Level batch.now) (equality_element L.arithmetic (slot_of L.Level batch.now) (map L.means z.now)) }
{
    let mut equality = BitTensor { rows };
    equality.equality_element(batch.reduction.rest(), z, scratch);
    equality.batch_rows(batch.eq_batch)
}

// The successor share of the closing value: that of the carry and the last element. Their rows are written, and so lent as slices.
fn successor_share<L: Level>(
    batch: &BitRingSwitchBatch<L>,
    alpha: L,
    z: &[L],
    carry: &mut [L],
    last: &mut [L],
    scratch: &mut [L],
) -> L
    requires point { length z.now ≡ length (slot_of L.Level batch.now) }
    requires carry { length carry.old ≡ width L.Level.log }
    requires last { length last.old ≡ width L.Level.log }
    requires scratch { length scratch.old ≡ width L.Level.log }
    ensures { L.means result ≡ successor_share_of L.Level batch.now (L.means alpha) (map L.means z.now) }
{
    let slot = batch.reduction.rest();
    let rows = batch.reduction.columns().row_variables;
    carry_element(carry, rows, slot, z, scratch);
    last_element(last, rows, slot, z, scratch);
    let carry = PerCoordinate { elements: carry };
    let last = PerCoordinate { elements: last };
    let successor = SuccessorTensors { carry, last };
    successor_rows(batch.eq_batch, alpha, Some(successor))
}

// The closing value, the scratch in three: the carry's rows, the last's, and scratch for both.
fn value_through<L: Level>(batch: &BitRingSwitchBatch<L>, z: &[L], scratch: &mut [L]) -> L
    requires point { length z.now ≡ length (slot_of L.Level batch.now) }
    requires scratch { length scratch.old ≡ 3 * width L.Level.log }
    ensures { L.means result ≡ closing_value_of L.Level batch.now (map L.means z.now) }
{
    let width = batch.eq_batch.elements.len();
    let (carry, rest) = scratch.split_at_mut(width);
    let (last, rest) = rest.split_at_mut(width);
    let equality = equality_rows(batch, z, carry, rest);
    match batch.alpha {
        None => equality,
        Some(alpha) => equality.add(successor_share(batch, alpha, z, carry, last, rest)),
    }
}

// The closing value at a closing point z, which has a coordinate for each of the slot's: the multilinear value there of the table
// of the slot's weights. The scratch, 3d elements, is left zero.
pub fn closing_value<L: Level>(batch: &BitRingSwitchBatch<L>, z: &[L], scratch: &mut [L]) -> L
    requires point { length z.now ≡ length (slot_of L.Level batch.now) }
    requires scratch { length scratch.old ≡ 3 * width L.Level.log }
    ensures value { L.means result ≡ closing_value_of L.Level batch.now (map L.means z.now) }
    ensures multilinear { L.means result ≡ multilinear L.arithmetic (weights_of L.Level batch.now) (map L.means z.now) }
    ensures scratch { lent L.means scratch.new ≡ nothing }
{
    let value = value_through(batch, z, scratch);
    clear(scratch);
    value
}
