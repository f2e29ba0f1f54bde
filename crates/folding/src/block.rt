ghost use Rattle.std.specs.Prelude.{◌≡◌, ◌+◌, ◌*◌, ◌≤◌, length, take, drop};
ghost use Rattle.level.specs.Bytes.{num_bytes};
ghost use Rattle.level.specs.Element.{width};
ghost use Rattle.multilinear.specs.Lent.{lent};
ghost use Rattle.tensor_algebra.specs.Tensor.{exterior, add, scale_columns};
ghost use Rattle.folding.specs.Folds.{terms_of};
ghost use Rattle.folding.specs.Slots.{with_blocks};

use crate::slot_table::SlotTable;
use coordinates::per_coordinate::PerCoordinate;
use coordinates::{num_bytes, width};
use level::level::Level;
use products::factors::LeftFactors;
use tensor::bit_tensor::BitTensor;

// How many elements of scratch a fold takes: 256 buckets for each byte of an element, and the rows of one block's sum.
pub fn scratch_len<L: Level>() -> usize
    requires { L.Level.log ≤ 7 }
    ensures { result ≡ 256 * num_bytes L.Level.log + width L.Level.log }
{
    256 * num_bytes::<L>() + width::<L>()
}

// Adds a ⊗ b.
pub(crate) fn add_exterior_product<L: Level>(rows: &mut [L], a: L, b: L)
    requires narrow { L.Level.log ≤ 7 }
    requires rows { length rows.old ≡ width L.Level.log }
    ensures { lent L.means rows.new ≡ add (lent L.means rows.old) (exterior (L.means a) (L.means b)) }
{
    let mut tensor = BitTensor { rows };
    tensor.add_dense_product(a, b);
}

// Adds the sum of left[j] ⊗ right[j], its columns scaled by a weight.
fn add_block<L: Level>(
    rows: &mut [L],
    left: &LeftFactors<'_, L>,
    right: &[L],
    weight: L,
    scratch: &mut [L],
)
    requires narrow { L.Level.log ≤ 7 }
    requires terms { length right.now ≡ length left.now.left.now }
    requires rows { length rows.old ≡ width L.Level.log }
    requires scratch { length scratch.old ≡ 256 * num_bytes L.Level.log + width L.Level.log }
    ensures { lent L.means rows.new ≡ add (lent L.means rows.old) (scale_columns L.arithmetic (L.means weight) (terms_of L.means left.now.left.now right.now)) }
{
    let (buckets, sum) = scratch.split_at_mut(256 * num_bytes::<L>());
    left.sum(right, buckets, sum);
    let mut tensor = BitTensor { rows };
    tensor.add_scaled_columns(PerCoordinate { elements: sum }, weight);
}

// The elements of block b, of `len` elements to a block.
fn block_at<L: Level>(values: &[L], b: usize, len: usize) -> &[L]
    requires { b * len + len ≤ length values.now }
    ensures { result.now ≡ take len (drop (b * len) values.now) }
{
    &values[b * len..b * len + len]
}

impl<'a, L: Level> SlotTable<'a, L> {
    // Adds for every block the sum of its elements against the left factors, its columns scaled by the block's outer weight. The blocks
    // go by their index, which says where each begins: beside the outer weights `chunks_exact` would be a second iterator to follow.
    pub(crate) fn add_blocks(&self, rows: &mut [L], left: &LeftFactors<'_, L>, scratch: &mut [L])
        requires left { length left.now.left.now ≡ length self.now.equality.inner.now }
        requires rows { length rows.old ≡ width L.Level.log }
        requires scratch { length scratch.old ≡ 256 * num_bytes L.Level.log + width L.Level.log }
        ensures { lent L.means rows.new ≡ with_blocks L.Level self.now (lent L.means left.now.left.now) (lent L.means rows.old) }
    {
        let len = self.equality.block_len();
        let outer = self.equality.outer;
        for (b, weight) in outer.iter().enumerate() {
            add_block(rows, left, block_at(self.values, b, len), *weight, scratch);
        }
    }
}
