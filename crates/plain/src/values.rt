ghost use Rattle.std.specs.Prelude.{◌≡◌};
ghost use Rattle.multilinear.specs.Cells.{cell, standing};
ghost use Rattle.ring_switch.specs.ClaimLaws.{value, value_one_row_on};
ghost use Rattle.opening.specs.Openings.{opening_of};
ghost use Rattle.plain.specs.Claims.{incoming_of, successor_claim_of};

use crate::cells::{cell, successor_cell};
use crate::sums::value_at;
use columns::Columns;
use level::level::Level;
use opening::bit_ring_switch::BitRingSwitch;

// A bit standing for zero or one: a digit, as the definition reads a cell.
#[tactic(auto, using(crate::proofs::Bits::standing_clear, crate::proofs::Bits::standing_set))]
fn standing<L: Level>(bit: u8) -> L
    ensures { L.means result ≡ standing L.arithmetic bit }
{
    if bit == 0 { L::zero() } else { L::one() }
}

// The multilinear value of a table of bits at the point of an opening: the incoming claim of the table's tensor.
pub fn table_value<L: Level>(bits: &[u8], reduction: &BitRingSwitch<L>) -> L
    ensures value { L.means result ≡ value L.arithmetic (opening_of L.Level reduction.now) (cell bits.now) }
    ensures incoming { L.means result ≡ incoming_of L.arithmetic (opening_of L.Level reduction.now) (cell bits.now) }
{
    value_at(reduction.point, |c| standing(cell(bits, c)))
}

// That of the bits one row on, under the view of the opening: the successor claim of the table's tensor, carry and last. Without a view a row
// is a single bit, and the bits stay as they are.
pub fn successor_value<L: Level>(bits: &[u8], reduction: &BitRingSwitch<L>) -> L
    ensures value { L.means result ≡ value_one_row_on L.arithmetic (opening_of L.Level reduction.now) (cell bits.now) }
    ensures claim { L.means result ≡ successor_claim_of L.arithmetic (opening_of L.Level reduction.now) (cell bits.now) }
{
    let rows = Columns::new(reduction.view.unwrap_or(0));
    value_at(
        reduction.point,
        |c| standing(cell(bits, successor_cell(rows, c))),
    )
}
