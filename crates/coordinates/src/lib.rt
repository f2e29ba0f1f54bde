// An element's coordinates: as one number, coordinate u at bit u, for levels of at most 128 coordinates; as sixteen bytes; elements made from
// them; and slices with an element for each coordinate, the rows of a tensor among them, read by columns and against weights.
#![tactic(auto)]

ghost use Rattle.std.specs.Prelude.{◌≡◌, ◌+◌, ◌*◌, ◌/◌, ◌%◌, ◌^◌, ◌<◌, ◌≤◌};
ghost use Rattle.level.specs.Element.{width, cut};
ghost use Rattle.level.specs.Bytes.{num_bytes};
ghost use Rattle.multilinear.specs.Lent.{lent};
ghost use Rattle.tensor_algebra.specs.Tensor.{nothing};
ghost use Rattle.tensor_algebra.specs.Subsets.{basis};

use level::level::Level;

pub mod coefficients;
pub mod per_coordinate;

// How many coordinates an element of the level has.
pub fn width<L: Level>() -> usize
    requires { L.Level.log ≤ 7 }
    ensures { result ≡ width L.Level.log }
{
    1 << L::log_width()
}

// How many bytes hold the coordinates, one where they do not fill it.
pub fn num_bytes<L: Level>() -> usize
    requires { L.Level.log ≤ 7 }
    ensures { result ≡ num_bytes L.Level.log }
{
    (width::<L>() / 8).max(1)
}

// An element's coordinates.
pub fn coordinates<L: Level>(x: L) -> u128
    requires { L.Level.log ≤ 7 }
    ensures { result ≡ (L.means x).number }
{
    u128::from_le_bytes(x.to_bytes())
}

// The element with those coordinates: bits past the width are dropped, and coordinates from 128 on are 0.
#[tactic(auto, using(crate::proofs::Numbers::element_of, level::proofs::Words::to_le_bytes))]
pub fn from_coordinates<L: Level>(coordinates: u128) -> L
    ensures { L.means result ≡ cut L.Level.log coordinates }
{
    L::from_bytes(coordinates.to_le_bytes())
}

// The element of which coordinate u alone is set, and zero past the width.
#[tactic(auto, using(crate::proofs::Numbers::basis_of, crate::proofs::Numbers::one_bit))]
pub fn basis<L: Level>(u: usize) -> L
    requires { u < 128 }
    ensures { L.means result ≡ basis L.Level.log u }
{
    from_coordinates(1 << u)
}

// Coordinate u, 0 or 1: a number, since `with_coordinate` puts such digits together.
pub fn coordinate(coordinates: u128, u: usize) -> u128
    requires { u < 128 }
    ensures { result ≡ coordinates / 2 ^ u % 2 }
{
    (coordinates >> u) % 2
}

// Coordinates below u, with a bit, 0 or 1, as coordinate u.
#[tactic(auto, using(crate::proofs::Numbers::next_bit))]
pub fn with_coordinate(coordinates: u128, u: usize, bit: u128) -> u128
    requires { (u < 128) × ((coordinates < 2 ^ u) × (bit < 2)) }
    ensures { result ≡ coordinates + bit * 2 ^ u }
{
    coordinates | (bit << u)
}

// Sets every element to zero. It is no `fill`, which asks that a clone cannot fail, and `Copy` does not say so. A closure around `L::zero`,
// since a function of a type parameter that is handed over by name is refused.
pub fn clear<L: Level>(elements: &mut [L])
    ensures { lent L.means elements.new ≡ nothing }
{
    elements.fill_with(|| L::zero());
}
