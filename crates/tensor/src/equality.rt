ghost use Rattle.std.specs.Prelude.{◌≡◌, map, length};
ghost use Rattle.level.specs.Element.{width};
ghost use Rattle.multilinear.specs.Lent.{lent};
ghost use Rattle.tensor_algebra.specs.Tensor.{nothing, equality_factors, equality_element};

use crate::bit_tensor::BitTensor;
use coordinates::clear;
use level::level::Level;

impl<'a, L: Level> BitTensor<'a, L> {
    // Multiplies by the equality factors of two points' coordinates, one after the other. The scratch, d elements, is left zero.
    pub fn mul_equality_factors(&mut self, point: &[L], other: &[L], scratch: &mut [L])
        requires scratch { length scratch.old ≡ width L.Level.log }
        requires points { length other.now ≡ length point.now }
        ensures same { self.new.rows.ghost_name ≡ self.old.rows.ghost_name }
        ensures rows { lent L.means self.new.rows.now ≡ equality_factors L.arithmetic (map L.means point.now) (map L.means other.now) (lent L.means self.old.rows.now) }
        ensures scratch { lent L.means scratch.new ≡ nothing }
    {
        clear(scratch);
        for (a, b) in point.iter().zip(other) {
            self.mul_equality_factor(*a, *b, scratch);
        }
    }

    // Becomes the equality element of two points: the product over their coordinates of a ⊗ b + (1 + a) ⊗ (1 + b), which is the equality
    // factor of a and b. The scratch, d elements, is left zero.
    pub fn equality_element(&mut self, point: &[L], other: &[L], scratch: &mut [L])
        requires scratch { length scratch.old ≡ width L.Level.log }
        requires points { length other.now ≡ length point.now }
        ensures same { self.new.rows.ghost_name ≡ self.old.rows.ghost_name }
        ensures rows { lent L.means self.new.rows.now ≡ equality_element L.arithmetic (map L.means point.now) (map L.means other.now) }
        ensures scratch { lent L.means scratch.new ≡ nothing }
    {
        self.set_one();
        self.mul_equality_factors(point, other, scratch);
    }
}
