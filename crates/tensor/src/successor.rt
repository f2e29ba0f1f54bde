ghost use Rattle.std.specs.Prelude.{◌≡◌, map, length};
ghost use Rattle.level.specs.Element.{plus, width};
ghost use Rattle.multilinear.specs.Lent.{lent};
ghost use Rattle.tensor_algebra.specs.Tensor.{nothing, successor_element};
ghost use Rattle.tensor.specs.Steps.{stepped};

use crate::bit_tensor::{BitTensor, one_plus};
use coordinates::clear;
use level::level::Level;

// The carry of the coordinates passed so far, an exterior product: its two legs.
#[derive(Clone, Copy)]
struct Carry<L> {
    first: L,
    second: L,
}

// The carry past a coordinate a of the first point and b of the second.
fn passed<L: Level>(carry: Carry<L>, a: L, b: L) -> Carry<L>
    ensures first { L.means result.first ≡ L.arithmetic.times (L.means a) (L.means carry.first) }
    ensures second { L.means result.second ≡ L.arithmetic.times (plus L.arithmetic.unit (L.means b)) (L.means carry.second) }
{
    Carry {
        first: a.mul(carry.first),
        second: one_plus(b).mul(carry.second),
    }
}

impl<'a, L: Level> BitTensor<'a, L> {
    // One coordinate of each point: multiplies by their equality factor, and adds the carry that settles there.
    fn settle(&mut self, a: L, b: L, carry: Carry<L>, scratch: &mut [L])
        requires { length scratch.old ≡ width L.Level.log }
        ensures same { self.new.rows.ghost_name ≡ self.old.rows.ghost_name }
        ensures rows { lent L.means self.new.rows.now ≡ stepped L.arithmetic (L.means a) (L.means b) (L.means carry.first) (L.means carry.second) (lent L.means self.old.rows.now) }
        ensures scratch { lent L.means scratch.new ≡ nothing }
    {
        self.mul_equality_factor(a, b, scratch);
        self.add_exterior_product(carry.first.mul(one_plus(a)), carry.second.mul(b));
    }

    // Becomes the successor element of two points, folded from their last coordinates to their first. The scratch, d elements, is left zero.
    pub fn successor_element(&mut self, point: &[L], other: &[L], scratch: &mut [L])
        requires scratch { length scratch.old ≡ width L.Level.log }
        requires points { length other.now ≡ length point.now }
        ensures same { self.new.rows.ghost_name ≡ self.old.rows.ghost_name }
        ensures rows { lent L.means self.new.rows.now ≡ successor_element L.arithmetic (map L.means point.now) (map L.means other.now) }
        ensures scratch { lent L.means scratch.new ≡ nothing }
    {
        self.clear();
        clear(scratch);
        let mut carry = Carry {
            first: L::one(),
            second: L::one(),
        };
        for (a, b) in point.iter().rev().zip(other.iter().rev()) {
            self.settle(*a, *b, carry, scratch);
            carry = passed(carry, *a, *b);
        }
    }
}
