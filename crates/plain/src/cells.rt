ghost use Rattle.std.specs.Prelude.{◌≡◌, ◌+◌, ◌*◌, ◌/◌, ◌%◌, ◌^◌, ◌<◌, ◌≤◌};
ghost use Rattle.level.specs.Element.{width};
ghost use Rattle.multilinear.specs.Cells.{cell, packed, successor};

use columns::Columns;
use coordinates::{from_coordinates, width, with_coordinate};
use level::level::Level;

// Bit `at` of a byte: a number and no `bool`, since the definition `cell` is a digit and `packed_element` puts digits together.
// `coordinates::coordinate` does the same of a `u128`, and would need a conversion each way.
fn bit(byte: u8, at: usize) -> u8
    requires { at < 8 }
    ensures { result ≡ byte / 2 ^ at % 2 }
{
    (byte >> at) % 2
}

// Cell c of a table of bits, which is bit c % 8 of its byte c / 8, and 0 past the end.
pub fn cell(bits: &[u8], c: usize) -> u8
    ensures { result ≡ cell bits.now c }
{
    bits.get(c / 8).map_or(0, |byte| bit(*byte, c % 8))
}

// Packed element w of a table of bits: its coordinate v is cell w·d + v.
pub fn packed_element<L: Level>(bits: &[u8], w: usize) -> L
    requires { (L.Level.log ≤ 7) × ((w + 1) * width L.Level.log ≤ 2 ^ 64) }
    ensures { L.means result ≡ packed L.Level.log (cell bits.now) w }
{
    let d = width::<L>();
    // A loop, since a `fold` leaves open that its closure may be called at each turn: what `with_coordinate` asks is known of the
    // number gathered so far alone.
    let mut coordinates = 0;
    for v in 0..d {
        coordinates = with_coordinate(coordinates, v, u128::from(cell(bits, w * d + v)));
    }
    from_coordinates(coordinates)
}

// The successor of cell c, where each column holds the cells of its rows one after the other: the next cell, or c itself at the last row of
// its column.
#[tactic(auto, using(crate::proofs::Bits::next_fits, crate::proofs::Bits::successor_stays, crate::proofs::Bits::successor_steps))]
pub fn successor_cell(columns: Columns, c: usize) -> usize
    ensures { result ≡ successor columns.row_variables c }
{
    if columns.ends(c) { c } else { c + 1 }
}
