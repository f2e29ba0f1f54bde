ghost use Rattle.std.specs.Prelude.{◌≡◌, ◌-◌, map, length, IfOk};
ghost use Rattle.std.specs.Option.{option_map};
ghost use Rattle.multilinear.specs.Cells.{cell};
ghost use Rattle.multilinear.specs.Equality.{equality};
ghost use Rattle.problem.specs.Task.{asked};
ghost use Rattle.refusals.specs.Refusals.{ring_switch_refusal, refused};
ghost use Rattle.report_lines.specs.Opened.{open_refusal, values_at, values_of};
ghost use Rattle.report_lines.specs.Batched.{Agree, batch_refusal};
ghost use Rattle.report_lines.specs.Closings.{Closes};
ghost use Rattle.reducing.specs.Held.{HoldsTable, HoldsOpening, HoldsTensors, HoldsBatching, task, batching_held};

use crate::opened_problem::OpenedProblem;
use level::level::Level;
use problem::problem::Problem;
use reduction::answers::{closing_value, incoming_claim, successor_claim};
use reduction::layout::Layout;
use reduction::steps;
use refusals::faults::BitRingSwitchError;
use report_lines::values::{OpeningValues, open as opened_at};

// Puts the opening of a problem into the stretch that has its table.
pub(crate) fn open<'a, L: Level>(
    problem: &'a Problem<L>,
    layout: Layout<L>,
    memory: &mut [L],
) -> Result<OpenedProblem<'a, L>, BitRingSwitchError>
    requires { HoldsTable L.Level problem.now layout.variables memory.old }
    ensures refusal { refused ring_switch_refusal result ≡ open_refusal L.Level.log (layout.variables - L.Level.log) (length problem.now.point.items) problem.now.view }
    ensures problem { IfOk result (λ p. p.problem.now ≡ problem.now) }
    ensures holds { IfOk result (λ p. HoldsOpening L.Level p memory.new) }
{
    let variables = layout.variables() - usize::from(L::log_width());
    let reduction = opened_at(variables, problem.point.as_slice(), problem.view)?;
    let opened = steps::open(memory, layout, &reduction);
    Ok(OpenedProblem {
        problem,
        reduction,
        layout,
        opened,
    })
}

// The successor claim of the tensors that the stretch has, where there is a view.
fn successor_of<L: Level>(opened: &OpenedProblem<L>, memory: &mut [L]) -> Option<L>
    requires { HoldsTensors L.Level opened.now memory.old }
    ensures value { let t = task L.Level opened.now in option_map L.means result ≡ (values_at L.arithmetic (asked t) (cell t.bits)).successor }
    ensures holds { HoldsTensors L.Level opened.now memory.new }
{
    match opened.problem.view {
        Some(rows) => Some(successor_claim(memory, opened.layout, rows)),
        None => None,
    }
}

// The values of the opening that the stretch has: its tensors are formed, and answer them.
pub(crate) fn opening_values<L: Level>(
    opened: &OpenedProblem<L>,
    memory: &mut [L],
) -> OpeningValues<L>
    requires { HoldsOpening L.Level opened.now memory.old }
    ensures values { let t = task L.Level opened.now in values_of L.means result ≡ values_at L.arithmetic (asked t) (cell t.bits) }
    ensures holds { HoldsTensors L.Level opened.now memory.new }
{
    steps::work(memory, opened.layout, opened.opened);
    let incoming = incoming_claim(memory, opened.layout);
    OpeningValues {
        incoming,
        successor: successor_of(opened, memory),
        prefix: opened.reduction.fixed_prefix(),
    }
}

// Puts a batching into the stretch, beside the tensors.
pub(crate) fn batch<L: Level>(
    opened: &OpenedProblem<L>,
    batching: &[L],
    memory: &mut [L],
) -> Result<(), BitRingSwitchError>
    requires { HoldsTensors L.Level opened.now memory.old }
    ensures refusal { let p = opened.now.problem.now in refused ring_switch_refusal result ≡ batch_refusal L.Level.log p.view p.challenge (length batching.now) }
    ensures holds { IfOk result (λ _. HoldsBatching L.Level opened.now memory.new) }
    ensures rows { IfOk result (λ _. Agree (batching_held L.Level opened.now memory.new).rows (equality L.arithmetic (map L.means batching.now))) }
{
    let challenge = opened.problem.challenge;
    opened
        .reduction
        .check_batching(challenge.is_some(), batching.len())?;
    steps::batch(memory, opened.layout, opened.opened, batching, challenge);
    Ok(())
}

// The closing value at a point, where it has a coordinate for each of the slot's.
pub(crate) fn close<L: Level>(
    opened: &OpenedProblem<L>,
    memory: &mut [L],
    z: &[L],
) -> Result<L, BitRingSwitchError>
    requires { HoldsBatching L.Level opened.now memory.old }
    ensures holds { HoldsBatching L.Level opened.now memory.new }
    ensures same { batching_held L.Level opened.now memory.new ≡ batching_held L.Level opened.now memory.old }
    ensures closes { Closes L.means L.arithmetic (batching_held L.Level opened.now memory.old) z.now result }
{
    opened.reduction.check_closing(z.len())?;
    let alpha = opened.problem.challenge;
    Ok(closing_value(memory, opened.layout, opened.opened, alpha, z))
}
