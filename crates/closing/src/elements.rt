ghost use Rattle.std.specs.Prelude.{◌≡◌, ◌-◌, ◌≤◌, map, length, take, drop};
ghost use Rattle.level.specs.Element.{width};
ghost use Rattle.multilinear.specs.Lent.{lent};
ghost use Rattle.tensor_algebra.specs.Tensor.{nothing, product};
ghost use Rattle.ring_switch.specs.Batching.{carry_element, last_element};

use level::level::Level;
use tensor::bit_tensor::BitTensor;

// The product of all coordinates of a point.
pub fn product<L: Level>(point: &[L]) -> L
    ensures { L.means result ≡ product L.arithmetic (map L.means point.now) }
{
    let mut product = L::one();
    for x in point.iter().rev() {
        product = x.mul(product);
    }
    product
}

// A point in two, as `split_at` answers it: its last r coordinates, and those before them.
fn rows_apart<L: Level>(point: &[L], r: usize) -> (&[L], &[L])
    requires { r ≤ length point.now }
    ensures before { result.0.now ≡ take (length point.now - r) point.now }
    ensures rows { result.1.now ≡ drop (length point.now - r) point.now }
    ensures before_len { length result.0.now ≡ length point.now - r }
    ensures rows_len { length result.1.now ≡ r }
{
    point.split_at(point.len() - r)
}

// Makes the rows those of the carry element of a slot and a closing point: the successor element of their last r coordinates under
// the equality factors of the others. A function over slices, as `last_element` is: no weights and no view are asked.
pub fn carry_element<L: Level>(rows: &mut [L], r: usize, slot: &[L], z: &[L], scratch: &mut [L])
    requires narrow { L.Level.log ≤ 7 }
    requires rows { length rows.old ≡ width L.Level.log }
    requires within { r ≤ length slot.now }
    requires points { length z.now ≡ length slot.now }
    requires scratch { length scratch.old ≡ width L.Level.log }
    ensures rows { lent L.means rows.new ≡ carry_element L.arithmetic r (map L.means slot.now) (map L.means z.now) }
    ensures scratch { lent L.means scratch.new ≡ nothing }
{
    let (selector, rho) = rows_apart(slot, r);
    let (z_selector, z_rows) = rows_apart(z, r);
    let mut carry = BitTensor { rows };
    carry.successor_element(rho, z_rows, scratch);
    carry.mul_equality_factors(selector, z_selector, scratch);
}

// Makes the rows those of the last element of a slot and a closing point: the products of their last r coordinates, one on each leg,
// under the equality factors of the others.
pub fn last_element<L: Level>(rows: &mut [L], r: usize, slot: &[L], z: &[L], scratch: &mut [L])
    requires narrow { L.Level.log ≤ 7 }
    requires rows { length rows.old ≡ width L.Level.log }
    requires within { r ≤ length slot.now }
    requires points { length z.now ≡ length slot.now }
    requires scratch { length scratch.old ≡ width L.Level.log }
    ensures rows { lent L.means rows.new ≡ last_element L.arithmetic r (map L.means slot.now) (map L.means z.now) }
    ensures scratch { lent L.means scratch.new ≡ nothing }
{
    let (selector, rho) = rows_apart(slot, r);
    let (z_selector, z_rows) = rows_apart(z, r);
    let mut last = BitTensor { rows };
    last.clear();
    last.add_exterior_product(product(rho), product(z_rows));
    last.mul_equality_factors(selector, z_selector, scratch);
}
