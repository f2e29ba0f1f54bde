ghost use Rattle.std.specs.Prelude.{◌≡◌, ℕ, ◌+◌, ◌-◌, ◌*◌, ◌<◌, length};
ghost use Rattle.level.specs.Bytes.{num_bytes};
ghost use Rattle.level.specs.Element.{width};
ghost use Rattle.multilinear.specs.Lent.{lent};
ghost use Rattle.tensor_algebra.specs.Tensor.{nothing, add};
ghost use Rattle.folding.specs.Folds.{shifted};
ghost use Rattle.folding.specs.Slots.{term_of, entering_of, slot_carry, with_entering};

use crate::block::add_exterior_product;
use crate::shifting::shift;
use crate::slot_table::SlotTable;
use columns::Columns;
use coordinates::clear;
use level::level::Level;
use products::factors::LeftFactors;

impl<'a, L: Level> SlotTable<'a, L> {
    // Adds the first element of block b beside the entry before the block.
    fn add_first(&self, rows: &mut [L], b: usize)
        requires place { (0 < b) × (b < length self.now.equality.outer.now) }
        requires rows { length rows.old ≡ width L.Level.log }
        ensures { let w = b * length self.now.equality.inner.now in lent L.means rows.new ≡ add (lent L.means rows.old) (term_of L.Level self.now (w - 1) w) }
    {
        let first = b * self.equality.block_len();
        add_exterior_product(rows, self.equality.before_block(b), self.values[first]);
    }

    // Adds the first element of block b beside the entry before the block, unless that element starts a column.
    fn add_entering(&self, rows: &mut [L], columns: Columns, b: usize)
        requires place { b < length self.now.equality.outer.now }
        requires rows { length rows.old ≡ width L.Level.log }
        ensures { lent L.means rows.new ≡ add (lent L.means rows.old) (entering_of L.Level self.now columns.row_variables b) }
    {
        if !columns.starts(b * self.equality.block_len()) {
            self.add_first(rows, b);
        }
    }

    // Adds what enters each block from the block before. A block's index says where it begins and which entry stands before it.
    fn add_all_entering(&self, rows: &mut [L], columns: Columns)
        requires { length rows.old ≡ width L.Level.log }
        ensures { lent L.means rows.new ≡ with_entering L.Level self.now columns.row_variables (lent L.means rows.old) }
    {
        for b in 0..self.equality.outer.len() {
            self.add_entering(rows, columns, b);
        }
    }

    // Makes the rows those of the carry of the slot: the sum of e(w - 1) ⊗ values[w] over the w that start no column, with e the
    // equality table that the factors hold. `shifted_inner`, as long as the inner factor, is left with the inner factor one place on,
    // zero where a column starts. The scratch has `block::scratch_len` elements and is left zero.
    pub fn carry(
        &self,
        columns: Columns,
        shifted_inner: &mut [L],
        rows: &mut [L],
        scratch: &mut [L],
    )
        requires shifted { length shifted_inner.old ≡ length self.now.equality.inner.now }
        requires rows { length rows.old ≡ width L.Level.log }
        requires scratch { length scratch.old ≡ 256 * num_bytes L.Level.log + width L.Level.log }
        ensures rows { lent L.means rows.new ≡ slot_carry L.Level self.now columns.row_variables }
        ensures shifted { (j : ℕ) → j < length self.now.equality.inner.now → lent L.means shifted_inner.new j ≡ shifted columns.row_variables (lent L.means self.now.equality.inner.now) j }
        ensures scratch { lent L.means scratch.new ≡ nothing }
    {
        clear(rows);
        shift(self.equality.inner, columns, shifted_inner);
        self.add_blocks(rows, &LeftFactors::new(shifted_inner), scratch);
        self.add_all_entering(rows, columns);
        clear(scratch);
    }
}
