ghost use Rattle.std.specs.Prelude.{◌≡◌, ◌≤◌, ◌++◌, map, length, IfOk, OnOk, Some, string_bytes};
ghost use Rattle.multilinear.specs.Cells.{cell};
ghost use Rattle.problem.specs.Task.{task_of};
ghost use Rattle.report_lines.specs.Report.{batched_text, opened_text, report_text, Reported};
ghost use Rattle.reducing.specs.Held.{HoldsTable, HoldsTensors, task};

use crate::lines::{batch_lines, closing_lines};
use crate::opened_problem::OpenedProblem;
use crate::steps::{batch, open, opening_values};
use level::level::Level;
use packing::pack_elements;
use problem::problem::Problem;
use reduction::layout::Layout;
use replies::reporter::Reporter;
use report_lines::finish::finish;
use report_lines::lines::element_lines;
use report_lines::stop::Stop;
use report_lines::values::opening_lines;
use report_lines::variables::packed_variables;
use std::alloc::{AllocError, Global};

// Adds the lines of the batching at a point and of the closing points, until a step is refused.
fn batched_lines<L: Level>(
    out: &mut String,
    opened: &OpenedProblem<L>,
    batching: &[L],
    memory: &mut [L],
) -> Result<(), Stop>
    requires { HoldsTensors L.Level opened.now memory.old }
    ensures { Reported result (string_bytes out.new) (string_bytes out.old ++ batched_text L.arithmetic (task L.Level opened.now) (Some (map L.means batching.now))) }
{
    batch(opened, batching, memory)?;
    batch_lines(out, opened, memory)?;
    closing_lines(out, opened, memory)
}

// Adds the lines of a problem past its packed elements, which the stretch has, until a step is refused.
fn opened_lines<L: Level>(
    out: &mut String,
    problem: &Problem<L>,
    layout: Layout<L>,
    memory: &mut [L],
) -> Result<(), Stop>
    requires { HoldsTable L.Level problem.now layout.variables memory.old }
    ensures { Reported result (string_bytes out.new) (string_bytes out.old ++ opened_text L.arithmetic (task_of L.means problem.now)) }
{
    let opened = open(problem, layout, memory)?;
    opening_lines(out, &opening_values(&opened, memory))?;
    match &problem.batching {
        Some(batching) => batched_lines(out, &opened, batching.as_slice(), memory),
        None => Ok(()),
    }
}

// Adds the lines of a problem, until a step is refused.
fn problem_lines<L: Level>(heap: Global, out: &mut String, problem: &Problem<L>) -> Result<(), Stop>
    ensures { Reported result (string_bytes out.new) (string_bytes out.old ++ report_text L.arithmetic (task_of L.means problem.now)) }
{
    let bits = problem.bits.as_slice();
    let variables = packed_variables::<L>(bits)?;
    let layout = Layout::new(variables + usize::from(L::log_width()));
    let mut stretch = vec![in heap; L::zero(); layout.len()]?;
    let memory = stretch.as_mut_slice();
    let count = pack_elements(bits, memory);
    element_lines(out, "packed", &memory[..count])?;
    opened_lines(out, problem, layout, memory)
}

// The report of a problem: its lines, and a last one where a step is refused.
pub fn report<L: Level>(heap: Global, problem: &Problem<L>) -> Result<String, AllocError>
    ensures { IfOk result (λ s. string_bytes s ≡ report_text L.arithmetic (task_of L.means problem.now)) }
{
    let mut out = String::new(heap);
    let lines = problem_lines(heap, &mut out, problem);
    finish(out, lines)
}

// Reports whose values are formed over one stretch of elements.
pub struct Reduction;

impl Reporter for Reduction {
    fn report<L: Level>(heap: Global, problem: &Problem<L>) -> Result<String, AllocError> {
        report(heap, problem)
    }
}
