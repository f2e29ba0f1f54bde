ghost use Rattle.std.specs.Prelude.{◌≡◌, ◌≤◌, length};
ghost use Rattle.level.specs.Element.{width};
ghost use Rattle.multilinear.specs.Lent.{lent};
ghost use Rattle.multilinear.specs.Sums.{sum as sum_of};
ghost use Rattle.tensor_algebra.specs.Tensor.{nothing, by_columns};

use coordinates::clear;
use coordinates::per_coordinate::PerCoordinate;
use level::level::Level;

// The sum of columns, column v times weight v: the columns with their index, as a claim is defined. It is no `batch_rows`, which is the
// same sum of rows, since the claim is to be this loop.
fn weighed<L: Level>(columns: PerCoordinate<L>, weights: PerCoordinate<L>) -> L
    ensures { L.means result ≡ sum_of (width L.Level.log) (λ v. L.arithmetic.times (lent L.means columns.entry.elements.now v) (lent L.means weights.entry.elements.now v)) }
{
    let mut sum = L::zero();
    for (v, column) in columns.elements.iter().enumerate() {
        let weight = weights.elements[v];
        sum = sum.add(column.mul(weight));
    }
    sum
}

// The sum of a tensor's columns, column v times weight v. The columns are gathered into the scratch, d elements, which is left zero.
pub(crate) fn by_columns<L: Level>(
    tensor: PerCoordinate<L>,
    weights: PerCoordinate<L>,
    scratch: &mut [L],
) -> L
    requires { length scratch.old ≡ width L.Level.log }
    ensures value { L.means result ≡ by_columns L.arithmetic (lent L.means weights.entry.elements.now) (lent L.means tensor.entry.elements.now) }
    ensures scratch { lent L.means scratch.new ≡ nothing }
{
    tensor.columns(scratch);
    let sum = weighed(PerCoordinate { elements: scratch }, weights);
    clear(scratch);
    sum
}
