ghost use Rattle.std.specs.Prelude.{◌≡◌, ℕ, ◌+◌, ◌-◌, ◌*◌, ◌^◌, ◌<◌, ◌≤◌, length, bit_and};
ghost use Rattle.std.specs.Int.Count.{count_trailing_zeros};
ghost use Rattle.level.specs.Element.{plus};
ghost use Rattle.multilinear.specs.Lent.{lent};
ghost use Rattle.basis.specs.Tables.{lone, held, Completed, Tabulated, looked_up, scaled_weights};
ghost use Rattle.level.specs.Bytes.{num_bytes};

use coordinates::per_coordinate::PerCoordinate;
use coordinates::{basis, num_bytes};
use level::level::Level;

// The subset without its lowest coordinate.
fn without_lowest(subset: usize) -> usize
    requires { 0 < subset }
    ensures { result ≡ bit_and subset (subset - 1) }
{
    subset & (subset - 1)
}

// The lowest coordinate of a subset, alone.
fn lowest(subset: usize) -> usize
    requires { (0 < subset) × (subset < 256) }
    ensures power { result ≡ 2 ^ count_trailing_zeros 64 subset }
    ensures within { result ≤ subset }
{
    1 << subset.trailing_zeros()
}

// The sum for a subset of one byte's coordinates: it extends the sum without the lowest.
fn extended<L: Level>(table: &[L], subset: usize) -> L
    requires subset { (0 < subset) × (subset < 256) }
    requires whole { 256 ≤ length table.now }
    ensures { L.means result ≡ plus (lent L.means table.now (bit_and subset (subset - 1))) (lent L.means table.now (2 ^ count_trailing_zeros 64 subset)) }
{
    table[without_lowest(subset)].add(table[lowest(subset)])
}

// Tabulates the sums of one byte position in a table of their own, from the weights of its coordinates at their places.
fn complete_position<L: Level>(table: &mut [L])
    requires { length table.old ≡ 256 }
    ensures { Completed (lent L.means table.old) (lent L.means table.new) 0 }
{
    table[0] = L::zero();

    // Numbers, since a sum is made of two that stand before it in the same table, which a loop over its entries cannot read.
    for subset in 1..256 {
        table[subset] = extended(table, subset);
    }
}

// Tabulates the sums of every byte position.
fn complete<L: Level>(tables: &mut [L])
    requires narrow { L.Level.log ≤ 7 }
    requires sized { length tables.old ≡ 256 * num_bytes L.Level.log }
    ensures { Tabulated (held (lent L.means tables.old)) (lent L.means tables.new) }
{
    // Numbers of bytes, since of what is written through `chunks_exact_mut` a proof knows only the length.
    for position in 0..num_bytes::<L>() {
        complete_position(&mut tables[256 * position..256 * position + 256]);
    }
}

// The place of the sum for a coordinate alone.
fn lone(coordinate: usize) -> usize
    requires { coordinate < 128 }
    ensures { result ≡ lone coordinate }
{
    256 * (coordinate / 8) + (1 << (coordinate % 8))
}

// The weight of a coordinate, zero past the last.
fn weight_at<L: Level>(weights: &[L], coordinate: usize) -> L
    ensures { L.means result ≡ lent L.means weights.now coordinate }
{
    weights.get(coordinate).copied().unwrap_or(L::zero())
}

// Tabulates the subset sums of one weight for each coordinate.
pub fn tabulate<L: Level>(tables: &mut [L], weights: PerCoordinate<L>)
    requires { length tables.old ≡ 256 * num_bytes L.Level.log }
    ensures { Tabulated (lent L.means weights.entry.elements.now) (lent L.means tables.new) }
{
    // Numbers, since a byte has eight coordinates also where the weights are fewer.
    for coordinate in 0..8 * num_bytes::<L>() {
        tables[lone(coordinate)] = weight_at(weights.elements, coordinate);
    }
    complete(tables);
}

// Sums of one weight for each coordinate that an element has set, looked up in lent tables: 256 entries for each of its bytes.
#[derive(Drop)]
pub struct CoordinateSums<'a, L: Level> {
    tables: &'a [L],
    ghost sized: { length tables.now ≡ 256 * num_bytes L.Level.log },
    ghost narrow: { L.Level.log ≤ 7 },
}

impl<'a, L: Level> CoordinateSums<'a, L> {
    // The sums that the tables hold.
    pub fn new(tables: &'a [L]) -> CoordinateSums<'a, L>
        requires narrow { L.Level.log ≤ 7 }
        requires sized { length tables.now ≡ 256 * num_bytes L.Level.log }
        ensures { result.tables.now ≡ tables.now }
    {
        CoordinateSums { tables }
    }

    // The sum over the coordinates that the value has set: one entry for each of its bytes.
    pub fn sum(&self, value: L) -> L
        ensures { L.means result ≡ looked_up (lent L.means self.now.tables.now) (L.means value) }
    {
        let bytes = value.to_bytes();
        let tables = self.tables.chunks_exact(256);
        let mut sum = L::zero();
        for (table, byte) in tables.zip(&bytes[..num_bytes::<L>()]) {
            sum = sum.add(table[usize::from(*byte)]);
        }
        sum
    }

    // Writes the sum for each element of the input.
    pub fn apply_into(&self, input: &[L], output: &mut [L])
        requires { length output.old ≡ length input.now }
        ensures { (i : ℕ) → i < length input.now → lent L.means output.new i ≡ looked_up (lent L.means self.now.tables.now) (lent L.means input.now i) }
    {
        // An index into the output, since of what is written through a zip with `iter_mut` a proof knows only the length.
        for (i, value) in input.iter().enumerate() {
            output[i] = self.sum(*value);
        }
    }

    // The sum for a scaled basis element.
    fn scaled_weight(&self, scale: L, coordinate: usize) -> L
        requires { coordinate < 128 }
        ensures { L.means result ≡ scaled_weights L.arithmetic (lent L.means self.now.tables.now) (L.means scale) coordinate }
    {
        self.sum(scale.mul(basis(coordinate)))
    }
}

// Tabulates into `out` the sums of what the source gives for each scaled basis element: where the source holds sums of weights, those that are
// taken once the value is scaled.
pub fn scaled_sums_into<L: Level>(out: &mut [L], sums: &CoordinateSums<'_, L>, scale: L)
    requires { length out.old ≡ 256 * num_bytes L.Level.log }
    ensures { Tabulated (scaled_weights L.arithmetic (lent L.means sums.now.tables.now) (L.means scale)) (lent L.means out.new) }
{
    // Numbers, since each coordinate is scaled and no list holds them.
    for coordinate in 0..8 * num_bytes::<L>() {
        out[lone(coordinate)] = sums.scaled_weight(scale, coordinate);
    }
    complete(out);
}
