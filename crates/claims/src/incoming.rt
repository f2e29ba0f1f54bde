ghost use Rattle.std.specs.Prelude.{◌≡◌, length};
ghost use Rattle.level.specs.Element.{width};
ghost use Rattle.multilinear.specs.Lent.{lent};
ghost use Rattle.tensor_algebra.specs.Tensor.{nothing};
ghost use Rattle.ring_switch.specs.Claims.{incoming};

use crate::by_columns::by_columns;
use coordinates::per_coordinate::PerCoordinate;
use level::level::Level;

// The incoming claim: column v of the tensor times entry v of the equality table of the low coordinates, summed. The scratch for the
// columns, d elements, is left zero.
#[tactic(auto, unfolding(ring_switch::specs::Claims::incoming))]
pub fn incoming_claim<L: Level>(
    tensor: PerCoordinate<L>,
    eq_low: PerCoordinate<L>,
    columns: &mut [L],
) -> L
    requires { length columns.old ≡ width L.Level.log }
    ensures value { L.means result ≡ incoming L.arithmetic (lent L.means eq_low.entry.elements.now) (lent L.means tensor.entry.elements.now) }
    ensures columns { lent L.means columns.new ≡ nothing }
{
    by_columns(tensor, eq_low, columns)
}
