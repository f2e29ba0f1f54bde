ghost use Rattle.std.specs.Prelude.{◌≡◌, ℕ, ◌*◌, ◌%◌, ◌^◌, ◌<◌, length};
ghost use Rattle.level.specs.Bytes.{num_bytes};
ghost use Rattle.multilinear.specs.Lent.{lent};
ghost use Rattle.tensor_algebra.specs.Tensor.{nothing};
ghost use Rattle.ring_switch.specs.Opening.{kept_rows};
ghost use Rattle.opening.specs.Openings.{opening_of};
ghost use Rattle.weights.specs.Weighed.{weighed};

use crate::combined::combine_weights;
use crate::settled::settled_weights;
use equality::factored::FactoredEquality;
use level::level::Level;
use opening::batch::BitRingSwitchBatch;

// Writes the weight, under a batching, of every entry of the table that the factors hold. The table has whole columns of the rows that the
// packing keeps. The scratch has `settled::scratch_len` elements and is left zero.
pub fn weights_over<L: Level>(
    table: &mut [L],
    equality: &FactoredEquality<'_, L>,
    batch: &BitRingSwitchBatch<'_, L>,
    scratch: &mut [L],
)
    requires table { length table.old ≡ length equality.now.outer.now * length equality.now.inner.now }
    requires whole { length table.old % 2 ^ kept_rows (opening_of L.Level batch.now.reduction) ≡ 0 }
    requires scratch { length scratch.old ≡ 512 * num_bytes L.Level.log }
    ensures weights { (i : ℕ) → i < length table.old → lent L.means table.new i ≡ weighed L.Level batch.now equality.now i }
    ensures scratch { lent L.means scratch.new ≡ nothing }
{
    settled_weights(table, equality, batch.eq_batch, scratch);
    if let Some(alpha) = batch.alpha {
        combine_weights(table, batch.reduction.columns(), alpha);
    }
}
