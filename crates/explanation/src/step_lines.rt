ghost use Rattle.std.specs.Prelude.{◌≡◌, ◌*◌, ◌^◌, ◌≤◌, ◌++◌, string_bytes, OnOk};
ghost use Rattle.level.specs.Element.{width};
ghost use Rattle.multilinear.specs.Cells.{cell};
ghost use Rattle.report_lines.specs.Batched.{batching_of};
ghost use Rattle.report_lines.specs.Report.{lines_below, packed_line, batching_text};
ghost use Rattle.explanation.specs.Texts.{weights_text};

use element_text::element::Shown;
use level::level::Level;
use opening::batch::BitRingSwitchBatch;
use plain::batching::{slot_sum, weight};
use plain::cells::packed_element;
use report_lines::lines::line;
use std::alloc::AllocError;

// Adds a line for each of the first packed elements.
pub(crate) fn packed_lines<L: Level>(
    out: &mut String,
    bits: &[u8],
    count: usize,
) -> Result<(), AllocError>
    requires { (L.Level.log ≤ 7) × (count * width L.Level.log ≤ 2 ^ 64) }
    ensures { OnOk result (string_bytes out.new ≡ string_bytes out.old ++ lines_below count (packed_line L.Level.log (cell bits.now))) }
{
    // Numbers, since an element of less than a byte is no slice of the bytes.
    for w in 0..count {
        line(out, "packed", Shown(packed_element::<L>(bits, w)))?;
    }
    Ok(())
}

// Adds a line for each weight of the slot.
fn weight_lines<L: Level>(out: &mut String, batch: &BitRingSwitchBatch<L>) -> Result<(), AllocError>
    ensures { OnOk result (string_bytes out.new ≡ string_bytes out.old ++ weights_text L.Level batch.now) }
{
    // Numbers, since each weight is formed and no list holds them.
    for i in 0..1 << batch.reduction.rest().len() {
        line(out, "weight", Shown(weight(batch, i)))?;
    }
    Ok(())
}

// Adds the lines of a batching over a table of bits: the initial sum and the weights.
pub(crate) fn batch_lines<L: Level>(
    out: &mut String,
    batch: &BitRingSwitchBatch<L>,
    bits: &[u8],
) -> Result<(), AllocError>
    ensures { OnOk result (string_bytes out.new ≡ string_bytes out.old ++ batching_text L.arithmetic (batching_of L.Level batch.now) (cell bits.now)) }
{
    line(out, "initial", Shown(slot_sum(batch, bits)))?;
    weight_lines(out, batch)
}
