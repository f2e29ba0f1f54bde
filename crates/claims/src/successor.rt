ghost use Rattle.std.specs.Prelude.{◌≡◌, ℕ, ◌<◌, length};
ghost use Rattle.level.specs.Element.{width};
ghost use Rattle.multilinear.specs.Lent.{lent};
ghost use Rattle.multilinear.specs.Sums.{where_set};
ghost use Rattle.tensor_algebra.specs.Tensor.{nothing, by_columns};
ghost use Rattle.ring_switch.specs.Claims.{inside, successor_claim as claim};
ghost use Rattle.tensor.specs.SuccessorTensors.{carry_of, last_of};
ghost use Rattle.claims.specs.Rippled.{rippled};

use crate::by_columns::by_columns;
use columns::Columns;
use coordinates::clear;
use coordinates::per_coordinate::PerCoordinate;
use level::level::Level;
use tensor::successor_tensors::SuccessorTensors;

// x where the test holds, else zero.
#[tactic(auto, unfolding(multilinear::specs::Sums::where_set))]
fn where_set<L: Level>(test: bool, x: L) -> L
    ensures { L.means result ≡ where_set test (L.means x) }
{
    if test { x } else { L::zero() }
}

// Writes the weight of every column in the successor claim, from the equality table of the low coordinates: that of the bit before it
// in its row of 2^q bits, and its own again where it ends its row. The row variables are a number, as a view names them, and become `Columns`
// here.
pub fn successor_low_weights<L: Level>(eq_low: &[L], q: usize, out: &mut [L])
    requires { (q < 64) × (length out.old ≡ length eq_low.now) }
    ensures { (v : ℕ) → v < length eq_low.now → lent L.means out.new v ≡ inside (lent L.means eq_low.now) q v }
{
    let columns = Columns::new(q);

    // An index, since a weight is read off the entry at its place and the one before it.
    for (v, weight) in out.iter_mut().enumerate() {
        let first = columns.starts(v);
        let last = columns.ends(v);
        let before = where_set(!first, eq_low[v.saturating_sub(1)]);
        let own = where_set(last, eq_low[v]);
        *weight = before.add(own);
    }
}

// The columns of the tensor against their weights in the successor claim.
fn settled<L: Level>(
    tensor: PerCoordinate<L>,
    eq_low: PerCoordinate<L>,
    q: usize,
    columns: &mut [L],
    weights: &mut [L],
) -> L
    requires q { q < 64 }
    requires columns { length columns.old ≡ width L.Level.log }
    requires weights { length weights.old ≡ width L.Level.log }
    ensures value { L.means result ≡ by_columns L.arithmetic (inside (lent L.means eq_low.entry.elements.now) q) (lent L.means tensor.entry.elements.now) }
    ensures columns { lent L.means columns.new ≡ nothing }
    ensures weights { lent L.means weights.new ≡ nothing }
{
    successor_low_weights(eq_low.elements, q, weights);
    let sum = by_columns(tensor, PerCoordinate { elements: weights }, columns);
    clear(weights);
    sum
}

// What ripples out of an element, where rows are longer than one: the weight of its last bit times the first column of the carry and
// the last column of the last.
fn rippled<L: Level>(successor: Option<SuccessorTensors<L>>, eq_low: PerCoordinate<L>) -> L
    ensures { L.means result ≡ rippled L.arithmetic (lent L.means eq_low.entry.elements.now) (carry_of successor.entry) (last_of successor.entry) }
{
    match successor {
        None => L::zero(),
        Some(successor) => {
            let top = eq_low.elements.len() - 1;
            let settling = successor.carry.column(0).add(successor.last.column(top));
            eq_low.elements[top].mul(settling)
        }
    }
}

// The successor claim of a view with q row variables: the tensor's columns against their weights and, where rows are longer than an
// element, what ripples out of it; there all q have one weight for each column. Where no carry and last are given they are zero, and nothing
// ripples. The scratches for the columns and for the weights, d elements each, are left zero.
pub fn successor_claim<L: Level>(
    tensor: PerCoordinate<L>,
    successor: Option<SuccessorTensors<L>>,
    eq_low: PerCoordinate<L>,
    q: usize,
    columns: &mut [L],
    weights: &mut [L],
) -> L
    requires columns { length columns.old ≡ width L.Level.log }
    requires weights { length weights.old ≡ width L.Level.log }
    ensures value { L.means result ≡ claim L.arithmetic (lent L.means eq_low.entry.elements.now) q (lent L.means tensor.entry.elements.now) (carry_of successor.entry) (last_of successor.entry) }
    ensures columns { lent L.means columns.new ≡ nothing }
    ensures weights { lent L.means weights.new ≡ nothing }
{
    let absorbed = usize::from(L::log_width());
    let settled = settled(tensor, eq_low, q.min(absorbed + 1), columns, weights);
    if q > absorbed {
        settled.add(rippled(successor, eq_low))
    } else {
        settled
    }
}
