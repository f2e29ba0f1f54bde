ghost use Rattle.std.specs.Prelude.{◌≡◌, ℕ, ◌%◌, ◌^◌, ◌<◌, length};
ghost use Rattle.multilinear.specs.Lent.{lent};
ghost use Rattle.weights.specs.Stepped.{stepped_row, stepped};

use columns::Columns;
use level::level::Level;

// What a row of a column of settled weights becomes: itself, with the row before times alpha unless it is the first, and with itself times
// alpha squared if it is the last.
fn combined<L: Level>(column: &[L], row: usize, alpha: L, alpha_squared: L) -> L
    requires { row < length column.now }
    ensures { L.means result ≡ stepped_row L.arithmetic (length column.now) (L.means alpha) (L.means alpha_squared) (lent L.means column.now) row }
{
    let settled = column[row];
    let mut value = settled;
    if row != 0 {
        value = value.add(alpha.mul(column[row - 1]));
    }
    if row == column.len() - 1 {
        value = value.add(alpha_squared.mul(settled));
    }
    value
}

// Combines the settled weights of one column, from its last row down: the row before is then still as it was.
fn combine_column<L: Level>(column: &mut [L], alpha: L, alpha_squared: L)
    ensures { (i : ℕ) → i < length column.old → lent L.means column.new i ≡ stepped_row L.arithmetic (length column.old) (L.means alpha) (L.means alpha_squared) (lent L.means column.old) i }
{
    for row in (0..column.len()).rev() {
        column[row] = combined(column, row, alpha, alpha_squared);
    }
}

// Combines settled weights into weights with successor tensors, over columns, of which the table has whole ones.
pub fn combine_weights<L: Level>(table: &mut [L], columns: Columns, alpha: L)
    requires { length table.old % 2 ^ columns.row_variables ≡ 0 }
    ensures { (i : ℕ) → i < length table.old → lent L.means table.new i ≡ stepped L.arithmetic columns.row_variables (L.means alpha) (lent L.means table.old) i }
{
    let alpha_squared = alpha.mul(alpha);
    let length = columns.length();

    // Numbers of columns, since of what is written through `chunks_exact_mut` a proof knows only the length.
    for column in 0..table.len() / length {
        let start = column * length;
        combine_column(&mut table[start..start + length], alpha, alpha_squared);
    }
}
