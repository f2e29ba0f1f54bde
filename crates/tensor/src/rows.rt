ghost use Rattle.std.specs.Prelude.{◌≡◌, ℕ, ◌/◌, ◌%◌, ◌^◌, ◌<◌, ◌≤◌, length};
ghost use Rattle.level.specs.Element.{plus};
ghost use Rattle.multilinear.specs.Lent.{lent};
ghost use Rattle.multilinear.specs.Sums.{at_bit, where_set};

use coordinates::coefficients::next_set;
use level::level::Level;

// Adds b to each row whose coordinate is set, the byte's lowest coordinate that of the first row.
fn add_where_set<L: Level>(rows: &mut [L], coordinates: u8, b: L)
    requires { length rows.old ≤ 8 }
    ensures { (i : ℕ) → i < length rows.old → lent L.means rows.new i ≡ plus (lent L.means rows.old i) (at_bit (coordinates / 2 ^ i % 2) (L.means b)) }
{
    let mut place = next_set(coordinates, 0);
    while place < rows.len() {
        rows[place] = rows[place].add(b);
        place = next_set(coordinates, place + 1);
    }
}

// x, with y added where a coordinate is set, and nothing added elsewhere.
fn add_where<L: Level>(x: L, set: bool, y: L) -> L
    ensures { L.means result ≡ plus (L.means x) (where_set set (L.means y)) }
{
    if set { x.add(y) } else { x }
}

// The same rows as `add_where_set` writes, for any number of them, by one turn for each. No branch hangs on a coordinate, so where half of the
// coordinates are set, as in products, it is quicker than to list them.
fn add_to_each<L: Level>(rows: &mut [L], coordinates: u8, b: L)
    ensures { (i : ℕ) → i < length rows.old → lent L.means rows.new i ≡ plus (lent L.means rows.old i) (at_bit (coordinates / 2 ^ i % 2) (L.means b)) }
{
    let mut rest = coordinates;
    for row in rows.iter_mut() {
        *row = add_where(*row, rest % 2 == 1, b);
        rest /= 2;
    }
}

// Adds b to each row whose coordinate is set, by the listing of the set coordinates or by one turn for each row.
pub(crate) fn add_byte<L: Level, const LISTED: bool>(rows: &mut [L], coordinates: u8, b: L)
    requires { length rows.old ≤ 8 }
    ensures { (i : ℕ) → i < length rows.old → lent L.means rows.new i ≡ plus (lent L.means rows.old i) (at_bit (coordinates / 2 ^ i % 2) (L.means b)) }
{
    if LISTED {
        add_where_set(rows, coordinates, b);
    } else {
        add_to_each(rows, coordinates, b);
    }
}
