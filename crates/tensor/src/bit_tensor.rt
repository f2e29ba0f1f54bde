ghost use Rattle.std.specs.Prelude.{◌≡◌, ◌<◌, ◌≤◌, length};
ghost use Rattle.level.specs.Element.{plus, width};
ghost use Rattle.multilinear.specs.Lent.{lent};
ghost use Rattle.tensor_algebra.specs.Subsets.{basis};
ghost use Rattle.tensor_algebra.specs.Tensor.{nothing, one, exterior, add, column, scale_rows, scale_columns, equality_factor, batch_rows};

use crate::rows::add_byte;
use coordinates::per_coordinate::PerCoordinate;
use coordinates::{basis, clear, num_bytes, width};
use level::level::Level;

// One plus x.
pub(crate) fn one_plus<L: Level>(x: L) -> L
    ensures { L.means result ≡ plus L.arithmetic.unit (L.means x) }
{
    L::one().add(x)
}

// A tensor over lent rows: d elements, row u at place u.
#[derive(Drop)]
pub struct BitTensor<'a, L: Level> {
    pub rows: &'a mut [L],
    ghost sized: { length rows.now ≡ width L.Level.log },
    ghost narrow: { L.Level.log ≤ 7 },
}

impl<'a, L: Level> BitTensor<'a, L> {
    // Becomes the zero tensor.
    pub fn clear(&mut self)
        ensures same { self.new.rows.ghost_name ≡ self.old.rows.ghost_name }
        ensures rows { lent L.means self.new.rows.now ≡ nothing }
    {
        clear(self.rows);
    }

    // Adds a ⊗ b: b to each row whose coordinate of a is set, a byte of coordinates at a time.
    fn add_bytes<const LISTED: bool>(&mut self, a: L, b: L)
        ensures same { self.new.rows.ghost_name ≡ self.old.rows.ghost_name }
        ensures rows { lent L.means self.new.rows.now ≡ add (lent L.means self.old.rows.now) (exterior (L.means a) (L.means b)) }
    {
        let bytes = a.to_bytes();
        let count = width::<L>().min(8);

        // A part of the rows for each byte, since of what is written through `chunks_mut` a proof knows only the length.
        for (j, byte) in bytes[..num_bytes::<L>()].iter().enumerate() {
            let start = 8 * j;
            add_byte::<L, LISTED>(&mut self.rows[start..start + count], *byte, b);
        }
    }

    // Adds a ⊗ b: b to each row whose coordinate of a is set. It lists the set coordinates.
    pub fn add_exterior_product(&mut self, a: L, b: L)
        ensures same { self.new.rows.ghost_name ≡ self.old.rows.ghost_name }
        ensures rows { lent L.means self.new.rows.now ≡ add (lent L.means self.old.rows.now) (exterior (L.means a) (L.means b)) }
    {
        self.add_bytes::<true>(a, b);
    }

    // The same by one turn for each row, for loops over many products: in those about half of the coordinates are set.
    pub fn add_dense_product(&mut self, a: L, b: L)
        ensures same { self.new.rows.ghost_name ≡ self.old.rows.ghost_name }
        ensures rows { lent L.means self.new.rows.now ≡ add (lent L.means self.old.rows.now) (exterior (L.means a) (L.means b)) }
    {
        self.add_bytes::<false>(a, b);
    }

    // Becomes one ⊗ one.
    pub fn set_one(&mut self)
        ensures same { self.new.rows.ghost_name ≡ self.old.rows.ghost_name }
        ensures rows { lent L.means self.new.rows.now ≡ one L.arithmetic }
    {
        self.clear();
        self.add_exterior_product(L::one(), L::one());
    }

    // Adds other rows, row by row. They are read by index, since after a zip with `iter_mut` nothing is known of what it wrote.
    pub fn add(&mut self, other: PerCoordinate<L>)
        ensures same { self.new.rows.ghost_name ≡ self.old.rows.ghost_name }
        ensures rows { lent L.means self.new.rows.now ≡ add (lent L.means self.old.rows.now) (lent L.means other.entry.elements.now) }
    {
        for (u, row) in self.rows.iter_mut().enumerate() {
            *row = row.add(other.elements[u]);
        }
    }

    // Multiplies every row by b.
    pub fn scale_rows(&mut self, b: L)
        ensures same { self.new.rows.ghost_name ≡ self.old.rows.ghost_name }
        ensures rows { lent L.means self.new.rows.now ≡ scale_rows L.arithmetic (L.means b) (lent L.means self.old.rows.now) }
    {
        for row in self.rows.iter_mut() {
            *row = b.mul(*row);
        }
    }

    // Adds row u of another tensor, its columns scaled by a: the scaled basis element u beside the row. A zero row adds nothing.
    fn add_scaled_row(&mut self, u: usize, row: L, a: L)
        requires { u < width L.Level.log }
        ensures same { self.new.rows.ghost_name ≡ self.old.rows.ghost_name }
        ensures rows { lent L.means self.new.rows.now ≡ add (lent L.means self.old.rows.now) (exterior (L.arithmetic.times (L.means a) (basis L.Level.log u)) (L.means row)) }
    {
        if !row.equals(L::zero()) {
            self.add_dense_product(a.mul(basis(u)), row);
        }
    }

    // Adds other rows, their columns scaled by a.
    pub fn add_scaled_columns(&mut self, other: PerCoordinate<L>, a: L)
        ensures same { self.new.rows.ghost_name ≡ self.old.rows.ghost_name }
        ensures rows { lent L.means self.new.rows.now ≡ add (lent L.means self.old.rows.now) (scale_columns L.arithmetic (L.means a) (lent L.means other.entry.elements.now)) }
    {
        for (u, row) in other.elements.iter().enumerate() {
            self.add_scaled_row(u, *row, a);
        }
    }

    // Multiplies every column by a. The scratch, d elements, is left zero.
    pub fn scale_columns(&mut self, a: L, scratch: &mut [L])
        requires { length scratch.old ≡ width L.Level.log }
        ensures same { self.new.rows.ghost_name ≡ self.old.rows.ghost_name }
        ensures rows { lent L.means self.new.rows.now ≡ scale_columns L.arithmetic (L.means a) (lent L.means self.old.rows.now) }
        ensures scratch { lent L.means scratch.new ≡ nothing }
    {
        let mut scaled = BitTensor { rows: scratch };
        scaled.clear();
        scaled.add_scaled_columns(self.reading(), a);
        self.rows.copy_from_slice(scaled.reading().elements);
        scaled.clear();
    }

    // Adds to it itself with its columns times a, and itself with its rows times b: the equality factor of a and b. The scratch, d elements,
    // is left zero.
    pub fn mul_equality_factor(&mut self, a: L, b: L, scratch: &mut [L])
        requires { length scratch.old ≡ width L.Level.log }
        ensures same { self.new.rows.ghost_name ≡ self.old.rows.ghost_name }
        ensures rows { lent L.means self.new.rows.now ≡ equality_factor L.arithmetic (L.means a) (L.means b) (lent L.means self.old.rows.now) }
        ensures scratch { lent L.means scratch.new ≡ nothing }
    {
        let mut scaled = BitTensor { rows: scratch };
        scaled.clear();
        scaled.add_scaled_columns(self.reading(), a);
        self.scale_rows(one_plus(b));
        self.add(scaled.reading());
        scaled.clear();
    }

    // The rows, to be read.
    pub fn reading(&self) -> PerCoordinate<'_, L>
        ensures { result.elements.now ≡ self.now.rows.now }
    {
        PerCoordinate {
            elements: self.rows,
        }
    }

    // Column v, read as an element.
    pub fn column(&self, v: usize) -> L
        requires { v < width L.Level.log }
        ensures { L.means result ≡ column (lent L.means self.now.rows.now) v }
    {
        self.reading().column(v)
    }

    // Writes every column, column v at place v.
    pub fn columns(&self, out: &mut [L])
        requires { length out.old ≡ width L.Level.log }
        ensures { lent L.means out.new ≡ column (lent L.means self.now.rows.now) }
    {
        self.reading().columns(out);
    }

    // The sum of the rows, row u times weight u.
    pub fn batch_rows(&self, weights: PerCoordinate<L>) -> L
        ensures { L.means result ≡ batch_rows L.arithmetic (lent L.means weights.entry.elements.now) (lent L.means self.now.rows.now) }
    {
        self.reading().batch_rows(weights)
    }
}
