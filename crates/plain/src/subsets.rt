ghost use Rattle.std.specs.Prelude.{◌≡◌, ◌/◌, ◌%◌, ◌^◌, ◌<◌, length};
ghost use Rattle.multilinear.specs.Lent.{lent};
ghost use Rattle.multilinear.specs.Sums.{at_bit};
ghost use Rattle.tensor_algebra.specs.Tensor.{subset_sum};

use crate::sums::sum_of;
use coordinates::per_coordinate::PerCoordinate;
use coordinates::{coordinate, coordinates};
use level::level::Level;

// x where coordinate u is set, else zero: a digit is asked, as the definition reads it, and no truth value.
#[tactic(auto, using(crate::proofs::Bits::at_bit_clear, crate::proofs::Bits::at_bit_set))]
fn at_coordinate<L: Level>(coordinates: u128, u: usize, x: L) -> L
    requires { u < 128 }
    ensures { L.means result ≡ at_bit (coordinates / 2 ^ u % 2) (L.means x) }
{
    if coordinate(coordinates, u) == 0 {
        L::zero()
    } else {
        x
    }
}

// The sum of the weights of an element's set coordinates.
pub fn subset_sum<L: Level>(weights: PerCoordinate<L>, x: L) -> L
    ensures { L.means result ≡ subset_sum (lent L.means weights.entry.elements.now) (L.means x) }
{
    let set = coordinates(x);
    let weights = weights.elements;
    sum_of(
        weights.len(),
        |u| -> L
            requires { (u < 128) × (u < length weights.now) }
            ensures { L.means result ≡ at_bit (set / 2 ^ u % 2) (lent L.means weights.entry.now u) }
        { at_coordinate(set, u, weights[u]) },
    )
}
