ghost use Rattle.std.specs.Prelude.{◌≡◌, ℕ, ◌<◌, length};
ghost use Rattle.multilinear.specs.Lent.{lent};
ghost use Rattle.folding.specs.Folds.{shifted};

use columns::Columns;
use level::level::Level;

// The entry before j in its column, zero where j starts one.
fn entry_before<L: Level>(inner: &[L], columns: Columns, j: usize) -> L
    requires { j < length inner.now }
    ensures { L.means result ≡ shifted columns.row_variables (lent L.means inner.now) j }
{
    if columns.starts(j) {
        L::zero()
    } else {
        inner[j - 1]
    }
}

// Writes the inner factors one place on, which are the left factors of the carry: entry j is zero where j starts a column, else inner
// entry j - 1.
pub fn shift<L: Level>(inner: &[L], columns: Columns, out: &mut [L])
    requires { length out.old ≡ length inner.now }
    ensures { (j : ℕ) → j < length inner.now → lent L.means out.new j ≡ shifted columns.row_variables (lent L.means inner.now) j }
{
    // By places, since the place says whether a column starts there.
    for (j, entry) in out.iter_mut().enumerate() {
        *entry = entry_before(inner, columns, j);
    }
}
