ghost use Rattle.std.specs.Prelude.{◌≡◌, ℕ, ◌^◌, ◌<◌, map, length};
ghost use Rattle.level.specs.Element.{Element};
ghost use Rattle.multilinear.specs.Equality.{equality, multilinear};
ghost use Rattle.multilinear.specs.Sums.{sum};
ghost use Rattle.plain.specs.Terms.{Gives};

use crate::points::equality_entry;
use level::level::Level;

// The sum of a term at every number below `count`.
pub(crate) fn sum_of<L: Level, F: Fn(usize) -> L>(count: usize, term: F) -> L
    requires { (i : ℕ) → i < count → F.pre term i }
    ensures { (f : ℕ → Element L.Level.log) → Gives L.means count (λ i x. F.post term i x) f → L.means result ≡ sum count f }
{
    // A loop, since the lemmas on `map` and `fold` ask for the term at every number, and it is known below `count` alone.
    let mut sum = L::zero();
    for i in 0..count {
        sum = sum.add(term(i));
    }
    sum
}

// The multilinear value at a point of the table whose entries a function gives.
pub(crate) fn value_at<L: Level, F: Fn(usize) -> L>(point: &[L], table: F) -> L
    requires short { length point.now < 64 }
    requires entries { (i : ℕ) → i < 2 ^ length point.now → F.pre table i }
    ensures { (f : ℕ → Element L.Level.log) → Gives L.means (2 ^ length point.now) (λ i x. F.post table i x) f → L.means result ≡ multilinear L.arithmetic f (map L.means point.now) }
{
    sum_of(
        1 << point.len(),
        |i| -> L
            requires { F.pre table i }
            ensures { (y : L) × (F.post table i y × (L.means result ≡ L.arithmetic.times (L.means y) (equality L.arithmetic (map L.means point.entry.now) i))) }
        { table(i).mul(equality_entry(point, i)) },
    )
}
