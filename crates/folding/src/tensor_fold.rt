ghost use Rattle.std.specs.Prelude.{◌≡◌, ◌+◌, ◌*◌, length};
ghost use Rattle.level.specs.Bytes.{num_bytes};
ghost use Rattle.level.specs.Element.{width};
ghost use Rattle.multilinear.specs.Lent.{lent};
ghost use Rattle.tensor_algebra.specs.Tensor.{nothing};
ghost use Rattle.folding.specs.Slots.{slot_tensor};

use crate::slot_table::SlotTable;
use coordinates::clear;
use level::level::Level;
use products::factors::LeftFactors;

impl<'a, L: Level> SlotTable<'a, L> {
    // Makes the rows those of the tensor of the slot: the sum of e(w) ⊗ values[w], with e the equality table that the factors hold.
    // The scratch has `block::scratch_len` elements and is left zero.
    pub fn tensor(&self, rows: &mut [L], scratch: &mut [L])
        requires rows { length rows.old ≡ width L.Level.log }
        requires scratch { length scratch.old ≡ 256 * num_bytes L.Level.log + width L.Level.log }
        ensures rows { lent L.means rows.new ≡ slot_tensor L.Level self.now }
        ensures scratch { lent L.means scratch.new ≡ nothing }
    {
        clear(rows);
        self.add_blocks(rows, &LeftFactors::new(self.equality.inner), scratch);
        clear(scratch);
    }
}
