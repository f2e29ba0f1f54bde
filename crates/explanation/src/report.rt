ghost use Rattle.std.specs.Prelude.{◌≡◌, ◌≤◌, ◌++◌, map, length, IfOk, Some, None, string_bytes};
ghost use Rattle.opening.specs.Openings.{opening_of};
ghost use Rattle.problem.specs.Task.{task_of, asked};
ghost use Rattle.report_lines.specs.Batched.{RowsOf, batch_refusal};
ghost use Rattle.report_lines.specs.Report.{variables_of, batched_text, opened_text, report_text, Reported};

use crate::step_lines::{batch_lines, packed_lines};
use crate::steps::{batching_rows, close, opening_values};
use coordinates::per_coordinate::PerCoordinate;
use level::level::Level;
use opening::batch::BitRingSwitchBatch;
use opening::bit_ring_switch::BitRingSwitch;
use problem::problem::Problem;
use replies::reporter::Reporter;
use report_lines::closings::closing_lines;
use report_lines::finish::finish;
use report_lines::stop::Stop;
use report_lines::values::{open, opening_lines};
use report_lines::variables::packed_variables;
use std::alloc::{AllocError, Global};

// Adds the lines of a batching that fits, with the weights of its point, and of the closing points, until one is refused. It is a function of
// its own, since a batching lends its opening and its weights for one time.
fn weighed_lines<'a, L: Level>(
    out: &mut String,
    problem: &Problem<L>,
    reduction: BitRingSwitch<'a, L>,
    batching: &[L],
    rows: &'a [L],
) -> Result<(), Stop>
    requires opened { opening_of L.Level reduction ≡ asked (task_of L.means problem.now) }
    requires rows { RowsOf L.Level batching.now rows.now }
    requires fits { batch_refusal L.Level.log reduction.view problem.now.challenge (length batching.now) ≡ None }
    ensures { Reported result (string_bytes out.new) (string_bytes out.old ++ batched_text L.arithmetic (task_of L.means problem.now) (Some (map L.means batching.now))) }
{
    let batch = BitRingSwitchBatch {
        reduction,
        eq_batch: PerCoordinate { elements: rows },
        alpha: problem.challenge,
    };
    batch_lines(out, &batch, problem.bits.as_slice())?;
    closing_lines(out, problem.closings.as_slice(), |z| close(&batch, z))
}

// Adds the lines of the batching at a point, and of the closing points, until a step is refused. The weights are formed only where the
// batching fits: the point of one that is refused may have any number of coordinates.
fn batched_lines<L: Level>(
    heap: Global,
    out: &mut String,
    problem: &Problem<L>,
    reduction: BitRingSwitch<L>,
    batching: &[L],
) -> Result<(), Stop>
    requires { opening_of L.Level reduction ≡ asked (task_of L.means problem.now) }
    ensures { Reported result (string_bytes out.new) (string_bytes out.old ++ batched_text L.arithmetic (task_of L.means problem.now) (Some (map L.means batching.now))) }
{
    reduction.check_batching(problem.challenge.is_some(), batching.len())?;
    let rows = batching_rows(heap, batching)?;
    weighed_lines(out, problem, reduction, batching, rows.as_slice())
}

// Adds the lines of a problem past its packed elements, until a step is refused.
fn opened_lines<L: Level>(
    heap: Global,
    out: &mut String,
    problem: &Problem<L>,
    variables: usize,
) -> Result<(), Stop>
    requires narrow { L.Level.log ≤ 7 }
    requires few { variables ≤ 24 }
    requires packed { variables ≡ variables_of L.Level.log (length problem.now.bits.items) }
    ensures { Reported result (string_bytes out.new) (string_bytes out.old ++ opened_text L.arithmetic (task_of L.means problem.now)) }
{
    let reduction = open(variables, problem.point.as_slice(), problem.view)?;
    opening_lines(out, &opening_values(problem.bits.as_slice(), &reduction))?;
    match &problem.batching {
        Some(batching) => batched_lines(heap, out, problem, reduction, batching.as_slice()),
        None => Ok(()),
    }
}

// Adds the lines of a problem, until a step is refused. The steps over lent memory are written apart from these, since a table is handed
// on from each to the next there and here none is.
fn problem_lines<L: Level>(heap: Global, out: &mut String, problem: &Problem<L>) -> Result<(), Stop>
    ensures { Reported result (string_bytes out.new) (string_bytes out.old ++ report_text L.arithmetic (task_of L.means problem.now)) }
{
    let bits = problem.bits.as_slice();
    let variables = packed_variables::<L>(bits)?;
    packed_lines::<L>(out, bits, 1 << variables)?;
    opened_lines(heap, out, problem, variables)
}

// The report of a problem: its lines, and a last one where a step is refused.
pub fn report<L: Level>(heap: Global, problem: &Problem<L>) -> Result<String, AllocError>
    ensures { IfOk result (λ s. string_bytes s ≡ report_text L.arithmetic (task_of L.means problem.now)) }
{
    let mut out = String::new(heap);
    let lines = problem_lines(heap, &mut out, problem);
    finish(out, lines)
}

// Reports whose values are computed plainly, each by its definition.
pub struct Explanation;

impl Reporter for Explanation {
    fn report<L: Level>(heap: Global, problem: &Problem<L>) -> Result<String, AllocError> {
        report(heap, problem)
    }
}
