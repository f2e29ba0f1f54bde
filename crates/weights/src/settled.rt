ghost use Rattle.std.specs.Prelude.{◌≡◌, ℕ, ◌*◌, ◌<◌, ◌≤◌, length};
ghost use Rattle.level.specs.Bytes.{num_bytes};
ghost use Rattle.multilinear.specs.Lent.{lent};
ghost use Rattle.tensor_algebra.specs.Tensor.{nothing};
ghost use Rattle.ring_switch.specs.Batching.{settled};
ghost use Rattle.weights.specs.Settled.{entries, through};

use basis::coordinate_sums::{CoordinateSums, scaled_sums_into, tabulate};
use coordinates::per_coordinate::PerCoordinate;
use coordinates::{clear, num_bytes};
use equality::factored::FactoredEquality;
use level::level::Level;

// How many elements of scratch the weights take: two tables of subset sums, those of the batching weights and those of a scaled block.
pub fn scratch_len<L: Level>() -> usize
    requires { L.Level.log ≤ 7 }
    ensures { result ≡ 512 * num_bytes L.Level.log }
{
    512 * num_bytes::<L>()
}

// Writes every block through the sums: those of each inner entry, scaled by the block's weight. The scale goes into the tables once, and not
// into every entry. `scaled` is scratch for the scaled tables.
fn settle_blocks<L: Level>(
    table: &mut [L],
    equality: &FactoredEquality<'_, L>,
    sums: &CoordinateSums<'_, L>,
    scaled: &mut [L],
)
    requires table { length table.old ≡ length equality.now.outer.now * length equality.now.inner.now }
    requires scaled { length scaled.old ≡ 256 * num_bytes L.Level.log }
    ensures { (i : ℕ) → i < length table.old → lent L.means table.new i ≡ through L.Level equality.now (lent L.means sums.now.tables.now) i }
{
    let len = equality.block_len();

    // A place of the table for each block, since of what is written through `chunks_exact_mut` a proof knows only the length.
    for (block, weight) in equality.outer.iter().enumerate() {
        let start = block * len;
        scaled_sums_into(scaled, sums, *weight);
        CoordinateSums::new(scaled).apply_into(equality.inner, &mut table[start..start + len]);
    }
}

// Writes the settled weights of a slot: for every entry of the equality table that the factors hold, the sum of the batching weights
// of its set coordinates. The scratch has `scratch_len` elements and is left zero.
pub fn settled_weights<L: Level>(
    table: &mut [L],
    equality: &FactoredEquality<'_, L>,
    eq_batch: PerCoordinate<L>,
    scratch: &mut [L],
)
    requires table { length table.old ≡ length equality.now.outer.now * length equality.now.inner.now }
    requires scratch { length scratch.old ≡ 512 * num_bytes L.Level.log }
    ensures weights { (i : ℕ) → i < length table.old → lent L.means table.new i ≡ settled (lent L.means eq_batch.entry.elements.now) (entries L.Level equality.now) i }
    ensures scratch { lent L.means scratch.new ≡ nothing }
{
    let (sums, scaled) = scratch.split_at_mut(256 * num_bytes::<L>());
    tabulate(sums, eq_batch);
    settle_blocks(table, equality, &CoordinateSums::new(sums), scaled);
    clear(scratch);
}
