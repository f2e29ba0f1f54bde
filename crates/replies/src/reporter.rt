ghost use Rattle.std.specs.Prelude.{◌≡◌, IfOk, string_bytes};
ghost use Rattle.problem.specs.Task.{task_of};
ghost use Rattle.report_lines.specs.Report.{report_text};

use level::level::Level;
use problem::problem::Problem;
use std::alloc::{AllocError, Global};

// A way to compute reports.
pub trait Reporter {
    // The report of a problem: its lines, and a last one where a step is refused.
    fn report<L: Level>(heap: Global, problem: &Problem<L>) -> Result<String, AllocError>
        ensures { IfOk result (λ s. string_bytes s ≡ report_text L.arithmetic (task_of L.means problem.now)) };
}
