ghost use Rattle.std.specs.Prelude.{◌≡◌, ◌+◌, ◌^◌, ◌≤◌, map, length};
ghost use Rattle.level.specs.Element.{plus};
ghost use Rattle.multilinear.specs.Lent.{lent};
ghost use Rattle.equality.specs.Tables.{Widened, Tabulated};

use level::level::Level;

// An entry split by a coordinate: what it is at the coordinate's bit 0, and at its bit 1.
#[derive(Clone, Copy)]
struct SplitEntry<L> {
    at_zero: L,
    at_one: L,
}

// An entry split by a coordinate x. One product.
fn split<L: Level>(entry: L, x: L) -> SplitEntry<L>
    ensures low { L.means result.at_zero ≡ plus (L.means entry) (L.arithmetic.times (L.means x) (L.means entry)) }
    ensures high { L.means result.at_one ≡ L.arithmetic.times (L.means x) (L.means entry) }
{
    let at_one = x.mul(entry);
    SplitEntry {
        at_zero: entry.add(at_one),
        at_one,
    }
}

// Widens a table of `half` entries by one coordinate at a more significant bit. The number stands beside the table, of which more is filled
// each time.
fn widen<L: Level>(table: &mut [L], half: usize, x: L)
    requires { half + half ≤ length table.old }
    ensures { Widened L.arithmetic (L.means x) half (lent L.means table.old) (lent L.means table.new) }
{
    let (low, high) = table.split_at_mut(half);

    // An index into the upper half, since of what is written through a zip of the two a proof knows only the length.
    for (i, entry) in low.iter_mut().enumerate() {
        let split_entry = split(*entry, x);
        *entry = split_entry.at_zero;
        high[i] = split_entry.at_one;
    }
}

// Writes the equality table of a point, begun from a start value: the later coordinates' table is widened by one coordinate at a
// time, from the last to the first.
pub fn equality_table<L: Level>(table: &mut [L], point: &[L], start: L)
    requires { length table.old ≡ 2 ^ length point.now }
    ensures { Tabulated L.means L.arithmetic (L.means start) (map L.means point.now) table.new }
{
    table[0] = start;
    let mut half = 1;
    for x in point.iter().rev() {
        widen(table, half, *x);
        half *= 2;
    }
}
