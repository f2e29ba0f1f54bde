ghost use Rattle.std.specs.Prelude.{◌≡◌, ℕ, ◌+◌, ◌*◌, ◌/◌, ◌%◌, ◌^◌, ◌<◌, ◌≤◌, length, slice_index};
ghost use Rattle.level.specs.Element.{width};
ghost use Rattle.multilinear.specs.Gathered.{binary};
ghost use Rattle.multilinear.specs.Lent.{lent};
ghost use Rattle.tensor_algebra.specs.Tensor.{column, batch_rows};

use crate::{coordinate, coordinates, from_coordinates, with_coordinate};
use level::level::Level;
use std::alloc::AllocError;

// An element for each coordinate of a level of at most 128 coordinates: the rows of a tensor, row u at place u, or a weight for each row or
// column.
pub struct PerCoordinate<'a, L: Level> {
    pub elements: &'a [L],
    ghost sized: { length elements.now ≡ width L.Level.log },
    ghost narrow: { L.Level.log ≤ 7 },
}

// By hand, since a generic struct with a ghost field derives no `Clone`.
impl<'a, L: Level> Clone for PerCoordinate<'a, L> {
    ghost is_clone = { λ x y. y ≡ x };

    fn clone(&self) -> Result<PerCoordinate<'a, L>, AllocError> {
        Ok(*self)
    }
}

impl<'a, L: Level> Copy for PerCoordinate<'a, L> {}

impl<'a, L: Level> PerCoordinate<'a, L> {
    // Column v of the tensor with these rows, read as an element: its coordinate u is coordinate v of row u.
    pub fn column(self, v: usize) -> L
        requires { v < width L.Level.log }
        ensures { L.means result ≡ column (lent L.means self.entry.elements.now) v }
    {
        let mut column = 0;
        for (u, row) in self.elements.iter().enumerate() {
            column = with_coordinate(column, u, coordinate(coordinates(*row), v));
        }
        from_coordinates(column)
    }

    // Writes every column of that tensor, column v at place v.
    pub fn columns(self, out: &mut [L])
        requires { length out.old ≡ width L.Level.log }
        ensures { lent L.means out.new ≡ column (lent L.means self.entry.elements.now) }
    {
        let source = row_coordinates(self);
        let source = &source[..out.len()];
        for (v, column) in out.iter_mut().enumerate() {
            *column = from_coordinates(gather(source, v));
        }
    }

    // The sum of the rows, row u times weight u.
    pub fn batch_rows(self, weights: PerCoordinate<L>) -> L
        ensures { L.means result ≡ batch_rows L.arithmetic (lent L.means weights.entry.elements.now) (lent L.means self.entry.elements.now) }
    {
        let mut sum = L::zero();
        for (row, weight) in self.elements.iter().zip(weights.elements) {
            sum = sum.add(weight.mul(*row));
        }
        sum
    }
}

// The coordinates of every row, each row read once. They lie in an array of the greatest width, since there is no heap, and are written
// by index, since after a zip with `iter_mut` only their number is known.
fn row_coordinates<L: Level>(rows: PerCoordinate<L>) -> [u128; 128]
    ensures { (u : ℕ) → u < width L.Level.log → slice_index result u ≡ (lent L.means rows.entry.elements.now u).number }
{
    let mut source = [0; 128];
    for (u, row) in rows.elements.iter().enumerate() {
        source[u] = coordinates(*row);
    }
    source
}

// The coordinates of column v, gathered from those of the rows, the last row's first.
fn gather(source: &[u128], v: usize) -> u128
    requires { (length source.now ≤ 128) × (v < 128) }
    ensures { result ≡ binary (length source.now) (λ u. slice_index source.now u / 2 ^ v % 2) }
{
    let mut column = 0;
    for row in source.iter().rev() {
        column = 2 * column + coordinate(*row, v);
    }
    column
}
