ghost use Rattle.std.specs.Prelude.{◌≡◌, ◌*◌, ◌≤◌, length};
ghost use Rattle.level.specs.Bytes.{num_bytes};
ghost use Rattle.level.specs.Element.{width};
ghost use Rattle.multilinear.specs.Lent.{lent};
ghost use Rattle.tensor_algebra.specs.Buckets.{bucket};
ghost use Rattle.products.specs.Buckets.{Summed};
ghost use Rattle.products.specs.Halves.{AllHalved};

use crate::buckets::BitTensorBuckets;
use level::level::Level;

// Sums left[w] ⊗ right[w] into rows, by way of the buckets, which are left halved.
fn sum_terms<L: Level>(sums: &mut BitTensorBuckets<'_, L>, left: &[L], right: &[L], rows: &mut [L])
    requires terms { length right.now ≡ length left.now }
    requires rows { length rows.old ≡ width L.Level.log }
    ensures same { sums.new.buckets.ghost_name ≡ sums.old.buckets.ghost_name }
    ensures rows { Summed (lent L.means left.now) (lent L.means right.now) (length left.now) (lent L.means rows.new) }
    ensures buckets { AllHalved (bucket (lent L.means left.now) (lent L.means right.now) (length left.now)) (lent L.means sums.new.buckets.now) }
{
    sums.clear();
    sums.add_exterior_products(left, right);
    sums.tensor(rows);
}

// Left factors that are read against many blocks of right factors, each block summed on its own.
#[derive(Drop)]
pub struct LeftFactors<'a, L> {
    left: &'a [L],
}

impl<'a, L: Level> LeftFactors<'a, L> {
    // The left factors of every block to come.
    pub fn new(left: &'a [L]) -> LeftFactors<'a, L>
        ensures { result.left.now ≡ left.now }
    {
        LeftFactors { left }
    }

    // The sum of left[w] ⊗ right[w], in rows. The buckets, 256 for each byte of an element, are scratch: what they held does not
    // matter, and the block's buckets are left in them halved.
    pub fn sum(&self, right: &[L], buckets: &mut [L], rows: &mut [L])
        requires narrow { L.Level.log ≤ 7 }
        requires terms { length right.now ≡ length self.now.left.now }
        requires buckets { length buckets.old ≡ 256 * num_bytes L.Level.log }
        requires rows { length rows.old ≡ width L.Level.log }
        ensures rows { Summed (lent L.means self.now.left.now) (lent L.means right.now) (length self.now.left.now) (lent L.means rows.new) }
        ensures buckets { AllHalved (bucket (lent L.means self.now.left.now) (lent L.means right.now) (length self.now.left.now)) (lent L.means buckets.new) }
    {
        let mut sums = BitTensorBuckets::new(buckets);
        sum_terms(&mut sums, self.left, right, rows);
    }
}
