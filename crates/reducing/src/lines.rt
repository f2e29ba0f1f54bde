ghost use Rattle.std.specs.Prelude.{◌≡◌, ℕ, ◌/◌, ◌≤◌, ◌++◌, map, length, string_bytes, OnOk};
ghost use Rattle.multilinear.specs.Cells.{cell};
ghost use Rattle.report_lines.specs.Closings.{Closes, closed_text};
ghost use Rattle.report_lines.specs.Report.{batching_text, Reported};
ghost use Rattle.reducing.specs.Held.{HoldsBatching, batching_held};

use crate::opened_problem::OpenedProblem;
use crate::steps::close;
use element_text::element::Shown;
use level::level::Level;
use reduction::answers::{initial_sum, weights};
use refusals::faults::BitRingSwitchError;
use report_lines::closings;
use report_lines::lines::{element_lines, line};
use report_lines::stop::Stop;
use std::alloc::AllocError;

// Adds the lines of the batching that the stretch holds: the initial sum and the weights.
pub(crate) fn batch_lines<L: Level>(
    out: &mut String,
    opened: &OpenedProblem<L>,
    memory: &[L],
) -> Result<(), AllocError>
    requires { HoldsBatching L.Level opened.now memory.now }
    ensures { OnOk result (string_bytes out.new ≡ string_bytes out.old ++ batching_text L.arithmetic (batching_held L.Level opened.now memory.now) (cell opened.now.problem.now.bits.items)) }
{
    let (layout, numbers) = (opened.layout, opened.opened);
    let initial = initial_sum(memory, layout, numbers, opened.problem.challenge);
    line(out, "initial", Shown(initial))?;
    element_lines(out, "weight", weights(memory, layout, numbers))
}

// Adds the line of each closing point, until one is refused.
pub(crate) fn closing_lines<L: Level>(
    out: &mut String,
    opened: &OpenedProblem<L>,
    memory: &mut [L],
) -> Result<(), Stop>
    requires { HoldsBatching L.Level opened.now memory.old }
    ensures { Reported result (string_bytes out.new) (string_bytes out.old ++ closed_text L.Level (batching_held L.Level opened.now memory.old) opened.now.problem.now.closings.items) }
{
    closings::closing_lines(
        out,
        opened.problem.closings.as_slice(),
        |z: &[L]| -> Result<L, BitRingSwitchError>
            requires holds { HoldsBatching L.Level opened.now memory.now }
            ensures holds { HoldsBatching L.Level opened.exit.now memory.exit.now }
            ensures same { batching_held L.Level opened.exit.now memory.exit.now ≡ batching_held L.Level opened.entry.now memory.entry.now }
            ensures closes { Closes L.means L.arithmetic (batching_held L.Level opened.entry.now memory.entry.now) z.now result }
        { close(opened, memory, z) },
    )
}
