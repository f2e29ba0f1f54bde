ghost use Rattle.std.specs.Prelude.{◌≡◌, ◌*◌, ◌≤◌, length};
ghost use Rattle.level.specs.Bytes.{num_bytes};
ghost use Rattle.level.specs.Element.{width};
ghost use Rattle.multilinear.specs.Lent.{lent};
ghost use Rattle.products.specs.Buckets.{Empty, Added, Bucketed};
ghost use Rattle.products.specs.Halves.{of_byte, RowsOf, AllHalved};

use crate::gathering::{add_term, add_terms};
use crate::reading::read_rows;
use coordinates::clear;
use level::level::Level;

// A sum of exterior products, one bucket for each value of each byte of the left factors.
//
// Row u of a sum of a(w) ⊗ b(w) takes b(w) for each w with coordinate u of a(w) set: half of the rows on average. Gathered by whole
// bytes, a term is added once for each byte, and a row is the sum of the buckets whose value has its bit set.
#[derive(Drop)]
pub struct BitTensorBuckets<'a, L: Level> {
    // 256 buckets for each byte, those of byte j from 256·j on
    pub buckets: &'a mut [L],
    ghost sized: { length buckets.now ≡ 256 * num_bytes L.Level.log },
    ghost narrow: { L.Level.log ≤ 7 },
}

impl<'a, L: Level> BitTensorBuckets<'a, L> {
    // Buckets in lent memory, as it stands.
    pub fn new(buckets: &'a mut [L]) -> BitTensorBuckets<'a, L>
        requires sized { length buckets.old ≡ 256 * num_bytes L.Level.log }
        requires narrow { L.Level.log ≤ 7 }
        ensures same { result.buckets.ghost_name ≡ buckets.entry.ghost_name }
        ensures held { result.buckets.now ≡ buckets.old }
    {
        BitTensorBuckets { buckets }
    }

    // Forgets every term.
    pub fn clear(&mut self)
        ensures same { self.new.buckets.ghost_name ≡ self.old.buckets.ghost_name }
        ensures empty { Empty (lent L.means self.new.buckets.now) }
    {
        clear(self.buckets);
    }

    // Adds a ⊗ b: one addition for each byte.
    pub fn add_exterior_product(&mut self, a: L, b: L)
        ensures same { self.new.buckets.ghost_name ≡ self.old.buckets.ghost_name }
        ensures added { Added (L.means a) (L.means b) (lent L.means self.old.buckets.now) (lent L.means self.new.buckets.now) }
    {
        add_term(self.buckets, a, b);
    }

    // Adds every term left[w] ⊗ right[w] to empty buckets.
    pub fn add_exterior_products(&mut self, left: &[L], right: &[L])
        requires empty { Empty (lent L.means self.old.buckets.now) }
        requires terms { length right.now ≡ length left.now }
        ensures same { self.new.buckets.ghost_name ≡ self.old.buckets.ghost_name }
        ensures bucketed { Bucketed (lent L.means left.now) (lent L.means right.now) (length left.now) (lent L.means self.new.buckets.now) }
    {
        add_terms(self.buckets, left, right);
    }

    // Reads the rows out, with 510 additions for each byte. The buckets are left halved: clear them before the next sum.
    pub fn tensor(&mut self, rows: &mut [L])
        requires { length rows.old ≡ width L.Level.log }
        ensures same { self.new.buckets.ghost_name ≡ self.old.buckets.ghost_name }
        ensures rows { RowsOf (lent L.means self.old.buckets.now) (lent L.means rows.new) }
        ensures halved { AllHalved (λ j. of_byte j (lent L.means self.old.buckets.now)) (lent L.means self.new.buckets.now) }
    {
        read_rows(self.buckets, rows);
    }
}
