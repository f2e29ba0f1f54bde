ghost use Rattle.std.specs.Prelude.{◌≡◌, ℕ, ◌≤◌, IfOk};
ghost use Rattle.std.specs.Option.{option_map};
ghost use Rattle.multilinear.specs.Cells.{cell};
ghost use Rattle.opening.specs.Openings.{opening_of};
ghost use Rattle.report_lines.specs.Opened.{values_at, values_of};
ghost use Rattle.report_lines.specs.Batched.{RowsOf, batching_of};
ghost use Rattle.report_lines.specs.Closings.{Closes};

use coordinates::width;
use level::level::Level;
use opening::batch::BitRingSwitchBatch;
use opening::bit_ring_switch::BitRingSwitch;
use plain::batching::closing_value;
use plain::points::equality_entries;
use plain::values::{successor_value, table_value};
use refusals::faults::BitRingSwitchError;
use report_lines::values::OpeningValues;
use std::alloc::{AllocError, Global};

// The multilinear value of the bits one row on, where the opening has a view.
fn viewed_value<L: Level>(bits: &[u8], reduction: &BitRingSwitch<L>) -> Option<L>
    ensures { option_map L.means result ≡ (values_at L.arithmetic (opening_of L.Level reduction.now) (cell bits.now)).successor }
{
    reduction.view?;
    Some(successor_value(bits, reduction))
}

// The values of an opening of a table of bits.
pub fn opening_values<L: Level>(bits: &[u8], reduction: &BitRingSwitch<L>) -> OpeningValues<L>
    ensures { values_of L.means result ≡ values_at L.arithmetic (opening_of L.Level reduction.now) (cell bits.now) }
{
    OpeningValues {
        incoming: table_value(bits, reduction),
        successor: viewed_value(bits, reduction),
        prefix: reduction.fixed_prefix(),
    }
}

// The batching weights of a point, its equality table over the coordinates of an element.
pub fn batching_rows<L: Level>(heap: Global, point: &[L]) -> Result<Vec<L>, AllocError>
    requires { L.Level.log ≤ 7 }
    ensures { IfOk result (λ v. RowsOf L.Level point.now v.items) }
{
    let mut rows = vec![in heap; L::zero(); width::<L>()]?;
    equality_entries(rows.as_mut_slice(), point);
    Ok(rows)
}

// The closing value of a batching at a point.
pub fn close<L: Level>(batch: &BitRingSwitchBatch<L>, z: &[L]) -> Result<L, BitRingSwitchError>
    ensures { Closes L.means L.arithmetic (batching_of L.Level batch.now) z.now result }
{
    batch.reduction.check_closing(z.len())?;
    Ok(closing_value(batch, z))
}
