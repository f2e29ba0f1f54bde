ghost use Rattle.std.specs.Prelude.{◌≡◌, ℕ, ◌<◌, true, false, map, length};
ghost use Rattle.level.specs.Element.{plus};
ghost use Rattle.multilinear.specs.Equality.{equality};
ghost use Rattle.multilinear.specs.Lent.{lent};

use level::level::Level;

// The factor of a coordinate at one bit of an index.
fn coordinate_factor<L: Level>(x: L, set: bool) -> L
    ensures at_one { set ≡ true → L.means result ≡ L.means x }
    ensures at_zero { set ≡ false → L.means result ≡ plus L.arithmetic.unit (L.means x) }
{
    if set { x } else { L::one().add(x) }
}

// Entry `index` of the equality table of a point, whose first coordinate is at the most significant bit.
pub fn equality_entry<L: Level>(point: &[L], index: usize) -> L
    ensures { L.means result ≡ equality L.arithmetic (map L.means point.now) index }
{
    let mut product = L::one();
    let mut rest = index;
    for x in point.iter().rev() {
        product = coordinate_factor(*x, rest % 2 == 1).mul(product);
        rest /= 2;
    }
    product
}

// Writes the first entries of that table, as many as a slice has room for.
pub fn equality_entries<L: Level>(out: &mut [L], point: &[L])
    ensures { (i : ℕ) → i < length out.old → lent L.means out.new i ≡ equality L.arithmetic (map L.means point.now) i }
{
    for (i, entry) in out.iter_mut().enumerate() {
        *entry = equality_entry(point, i);
    }
}
