ghost use Rattle.std.specs.Prelude.{◌≡◌, ◌%◌, ◌^◌, ◌<◌, length};
ghost use Rattle.level.specs.Element.{width};
ghost use Rattle.multilinear.specs.Lent.{lent};
ghost use Rattle.tensor_algebra.specs.Tensor.{add};
ghost use Rattle.folding.specs.Slots.{term_of, slot_last};

use crate::block::add_exterior_product;
use crate::slot_table::SlotTable;
use columns::Columns;
use coordinates::clear;
use level::level::Level;

impl<'a, L: Level> SlotTable<'a, L> {
    // Adds e(w) ⊗ values[w], with e the equality table that the factors hold.
    fn add_entry(&self, rows: &mut [L], w: usize)
        requires place { w < length self.now.values.now }
        requires rows { length rows.old ≡ width L.Level.log }
        ensures { lent L.means rows.new ≡ add (lent L.means rows.old) (term_of L.Level self.now w w) }
    {
        add_exterior_product(rows, self.equality.entry(w), self.values[w]);
    }

    // Makes the rows those of the last of the slot: the sum of e(w) ⊗ values[w] over the w that end a column, with e the equality
    // table that the factors hold. One entry in a column ends it, so its weight is formed directly. The columns go by their index:
    // `Columns::last` says at which place the table's entry and the element stand, and a `step_by` would say it a second time.
    pub fn last(&self, columns: Columns, rows: &mut [L])
        requires columns { length self.now.values.now % 2 ^ columns.row_variables ≡ 0 }
        requires rows { length rows.old ≡ width L.Level.log }
        ensures { lent L.means rows.new ≡ slot_last L.Level self.now columns.row_variables }
    {
        clear(rows);
        for c in 0..self.values.len() / columns.length() {
            self.add_entry(rows, columns.last(c));
        }
    }
}
