// What a batching comes to, weight by weight.
ghost use Rattle.std.specs.Prelude.{◌≡◌, ◌+◌, ◌*◌, ◌^◌, ◌<◌, ◌≤◌, not, map, length};
ghost use Rattle.level.specs.Element.{plus, width};
ghost use Rattle.multilinear.specs.Sums.{where_set};
ghost use Rattle.multilinear.specs.Equality.{multilinear};
ghost use Rattle.multilinear.specs.Cells.{cell};
ghost use Rattle.multilinear.specs.Columns.{starts, ends};
ghost use Rattle.ring_switch.specs.Opening.{rest};
ghost use Rattle.ring_switch.specs.Slots.{slot_table};
ghost use Rattle.ring_switch.specs.Batching.{settled};
ghost use Rattle.opening.specs.Openings.{opening_of};
ghost use Rattle.opening.specs.Batches.{rows_of, weights_of};
ghost use Rattle.plain.specs.Batches.{weighted_sum, initial_of, carried_weight, closing_of};

use crate::cells::packed_element;
use crate::points::equality_entry;
use crate::subsets::subset_sum;
use crate::sums::{sum_of, value_at};
use columns::Columns;
use level::level::Level;
use opening::batch::BitRingSwitchBatch;

// x where the test holds, else zero.
#[tactic(auto, unfolding(multilinear::specs::Sums::where_set))]
pub fn where_set<L: Level>(test: bool, x: L) -> L
    ensures { L.means result ≡ where_set test (L.means x) }
{
    if test { x } else { L::zero() }
}

// s(i): the sum of the batching weights of the set coordinates of entry i of the slot's equality table.
fn settled_weight<L: Level>(batch: &BitRingSwitchBatch<L>, i: usize) -> L
    ensures { L.means result ≡ settled (rows_of L.Level batch.now) (slot_table L.arithmetic (opening_of L.Level batch.now.reduction)) i }
{
    let entry = equality_entry(batch.reduction.rest(), i);
    subset_sum(batch.eq_batch, entry)
}

// What a challenge α adds to the weight of entry i, from s(i) and s(i - 1).
fn carried_weight<L: Level>(columns: Columns, alpha: L, here: L, before: L, i: usize) -> L
    ensures { L.means result ≡ carried_weight L.arithmetic columns.row_variables (L.means alpha) (L.means here) (L.means before) i }
{
    let carried = where_set(!columns.starts(i), alpha.mul(before));
    let last = where_set(columns.ends(i), alpha.mul(alpha).mul(here));
    here.add(carried).add(last)
}

// The weight of entry i of the slot: s(i), and with a challenge α also α·s(i - 1) unless i starts a column, and α²·s(i) if i ends one.
pub fn weight<L: Level>(batch: &BitRingSwitchBatch<L>, i: usize) -> L
    ensures { L.means result ≡ weights_of L.Level batch.now i }
{
    let here = settled_weight(batch, i);
    match batch.alpha {
        None => here,
        Some(alpha) => {
            let before = settled_weight(batch, i.saturating_sub(1));
            carried_weight(batch.reduction.columns(), alpha, here, before, i)
        }
    }
}

// The packed elements of the slot, each times its weight, added up: the initial sum of the tensors of a table of bits.
pub fn slot_sum<L: Level>(batch: &BitRingSwitchBatch<L>, bits: &[u8]) -> L
    ensures weighted { L.means result ≡ weighted_sum L.Level batch.now (cell bits.now) }
    ensures initial { L.means result ≡ initial_of L.Level batch.now (cell bits.now) }
{
    let start = batch.reduction.slot_start();
    sum_of(
        1 << batch.reduction.rest().len(),
        |i| -> L
            requires within { start + i < 2 ^ 64 }
            requires cells { (start + i + 1) * width L.Level.log ≤ 2 ^ 64 }
        { packed_element::<L>(bits, start + i).mul(weight(batch, i)) },
    )
}

// The closing value at a point z: the multilinear value there of the table of the slot's weights.
pub fn closing_value<L: Level>(batch: &BitRingSwitchBatch<L>, z: &[L]) -> L
    requires { length z.now < 64 }
    ensures value { L.means result ≡ multilinear L.arithmetic (weights_of L.Level batch.now) (map L.means z.now) }
    ensures closing { length z.now ≡ length (rest L.arithmetic (opening_of L.Level batch.now.reduction)) → L.means result ≡ closing_of L.Level batch.now (map L.means z.now) }
{
    value_at(z, |i| weight(batch, i))
}
