ghost use Rattle.std.specs.Prelude.{◌≡◌, ◌*◌, ◌<◌, ◌≤◌, map, length, take, is_some, IfSome};
ghost use Rattle.std.specs.Option.{option_map};
ghost use Rattle.multilinear.specs.Equality.{multilinear};
ghost use Rattle.level.specs.Element.{width};
ghost use Rattle.multilinear.specs.Lent.{lent};
ghost use Rattle.ring_switch.specs.Claims.{incoming, successor_claim};
ghost use Rattle.ring_switch.specs.Opening.{kept, rest, slot_start};
ghost use Rattle.ring_switch.specs.Slots.{slot_count};
ghost use Rattle.reduction.specs.Layout.{part, tensor_start, carry_start, last_start, scratch_start, layout_end};
ghost use Rattle.reduction.specs.Stretch.{Fits, Stands, opening_at as opening_of_point, opening_in, rows_in};
ghost use Rattle.reduction.specs.Worked.{incoming_in, successor_in, initial_in, weight_at, weight_in, weights_in};

use crate::layout::Layout;
use crate::opened::Opened;
use crate::parts::{batch_at, opening_at, part_at, point_in, rows_at, slot_entries};
use coordinates::per_coordinate::PerCoordinate;
use coordinates::width;
use level::level::Level;
use tensor::successor_tensors::SuccessorTensors;

// The sum of a tensor's columns against a table, the columns gathered in a scratch.
fn incoming_of<L: Level>(tensor: &[L], eq_low: &[L], columns: &mut [L]) -> L
    requires narrow { L.Level.log ≤ 7 }
    requires tensor { length tensor.now ≡ width L.Level.log }
    requires low { length eq_low.now ≡ width L.Level.log }
    requires columns { length columns.old ≡ width L.Level.log }
    ensures { L.means result ≡ incoming L.arithmetic (lent L.means eq_low.now) (lent L.means tensor.now) }
{
    let tensor = PerCoordinate { elements: tensor };
    let eq_low = PerCoordinate { elements: eq_low };
    claims::incoming::incoming_claim(tensor, eq_low, columns)
}

// The incoming claim of the tensor that the stretch holds, read against the table of the absorbed coordinates.
pub fn incoming_claim<L: Level>(memory: &mut [L], layout: Layout<L>) -> L
    requires room { layout_end L.Level.log layout.variables ≤ length memory.old }
    ensures before { take (scratch_start L.Level.log layout.variables) memory.new ≡ take (scratch_start L.Level.log layout.variables) memory.old }
    ensures value { L.means result ≡ incoming_in L.Level layout.variables memory.old }
{
    let (held, scratch) = memory.split_at_mut(layout.scratch_start());
    let tensor = rows_at(held, layout.tensor_start());
    let eq_low = rows_at(held, layout.low_start());
    incoming_of(tensor, eq_low, &mut scratch[..width::<L>()])
}

// The successor claim of a tensor, a carry and a last against a table, the columns and their weights gathered in two scratches.
fn successor_of<L: Level>(
    tensor: &[L],
    carry: &[L],
    last: &[L],
    eq_low: &[L],
    rows: usize,
    columns: &mut [L],
    weights: &mut [L],
) -> L
    requires narrow { L.Level.log ≤ 7 }
    requires tensor { length tensor.now ≡ width L.Level.log }
    requires carry { length carry.now ≡ width L.Level.log }
    requires last { length last.now ≡ width L.Level.log }
    requires low { length eq_low.now ≡ width L.Level.log }
    requires columns { length columns.old ≡ width L.Level.log }
    requires weights { length weights.old ≡ width L.Level.log }
    ensures { L.means result ≡ successor_claim L.arithmetic (lent L.means eq_low.now) rows (lent L.means tensor.now) (lent L.means carry.now) (lent L.means last.now) }
{
    let carry = PerCoordinate { elements: carry };
    let last = PerCoordinate { elements: last };
    claims::successor::successor_claim(
        PerCoordinate { elements: tensor },
        Some(SuccessorTensors { carry, last }),
        PerCoordinate { elements: eq_low },
        rows,
        columns,
        weights,
    )
}

// The successor claim of the tensors that the stretch holds, under a view of so many row variables. Where rows lie inside an element it reads
// the tensor alone.
pub fn successor_claim<L: Level>(memory: &mut [L], layout: Layout<L>, rows: usize) -> L
    requires room { layout_end L.Level.log layout.variables ≤ length memory.old }
    ensures before { take (scratch_start L.Level.log layout.variables) memory.new ≡ take (scratch_start L.Level.log layout.variables) memory.old }
    ensures value { L.means result ≡ successor_in L.Level layout.variables rows memory.old }
{
    let width = width::<L>();
    let (held, scratch) = memory.split_at_mut(layout.scratch_start());
    let (columns, scratch) = scratch.split_at_mut(width);
    let tensor = rows_at(held, layout.tensor_start());
    let carry = rows_at(held, layout.carry_start());
    let last = rows_at(held, layout.carry_start() + width);
    let eq_low = rows_at(held, layout.low_start());
    successor_of(
        tensor,
        carry,
        last,
        eq_low,
        rows,
        columns,
        &mut scratch[..width],
    )
}

// The initial sum of the tensors that the stretch holds, under a challenge exactly where the carry and the last are sent.
pub fn initial_sum<L: Level>(memory: &[L], layout: Layout<L>, opened: Opened, alpha: Option<L>) -> L
    requires room { layout_end L.Level.log layout.variables ≤ length memory.now }
    requires stands { Stands L.Level layout.variables opened memory.now }
    requires challenged { is_some alpha ≡ is_some (kept L.Level.log opened.view) }
    ensures { L.means result ≡ initial_in L.Level layout.variables (option_map L.means alpha) memory.now }
{
    let point = point_in(memory, layout, opened.variables);
    let width = width::<L>();
    let eq_batch = rows_at(memory, layout.batching_start() + width);
    let batch = batch_at(point, opened, eq_batch, alpha);
    let carry = rows_at(memory, layout.carry_start());
    let last = rows_at(memory, layout.carry_start() + width);
    let carry = PerCoordinate { elements: carry };
    let last = PerCoordinate { elements: last };
    closing::sums::initial_sum(
        &batch,
        tensor(memory, layout),
        Some(SuccessorTensors { carry, last }),
    )
}

// The closing value over slices.
fn closing_of<L: Level>(
    point: &[L],
    opened: Opened,
    eq_batch: &[L],
    alpha: Option<L>,
    z: &[L],
    scratch: &mut [L],
) -> L
    requires narrow { L.Level.log ≤ 7 }
    requires few { opened.variables < 64 }
    requires fits { Fits L.Level opened point.now }
    requires table { length eq_batch.now ≡ width L.Level.log }
    requires challenged { is_some alpha ≡ is_some (kept L.Level.log opened.view) }
    requires closing { length z.now ≡ length (rest L.arithmetic (opening_of_point L.Level opened point.now)) }
    requires scratch { length scratch.old ≡ 3 * width L.Level.log }
    ensures { L.means result ≡ multilinear L.arithmetic (weight_at L.Level opened point.now (lent L.means eq_batch.now) (option_map L.means alpha)) (map L.means z.now) }
{
    let batch = batch_at(point, opened, eq_batch, alpha);
    closing::closing::closing_value(&batch, z, scratch)
}

// The closing value at a point with a coordinate for each of the slot's: the multilinear value there of the slot's weights, formed from
// the batching table that the stretch holds.
pub fn closing_value<L: Level>(
    memory: &mut [L],
    layout: Layout<L>,
    opened: Opened,
    alpha: Option<L>,
    z: &[L],
) -> L
    requires room { layout_end L.Level.log layout.variables ≤ length memory.old }
    requires stands { Stands L.Level layout.variables opened memory.old }
    requires challenged { is_some alpha ≡ is_some (kept L.Level.log opened.view) }
    requires closing { length z.now ≡ length (rest L.arithmetic (opening_in L.Level layout.variables opened memory.old)) }
    ensures before { take (scratch_start L.Level.log layout.variables) memory.new ≡ take (scratch_start L.Level.log layout.variables) memory.old }
    ensures value { L.means result ≡ multilinear L.arithmetic (weight_in L.Level layout.variables opened (option_map L.means alpha) memory.old) (map L.means z.now) }
{
    let width = width::<L>();
    let (held, scratch) = memory.split_at_mut(layout.scratch_start());
    let point = point_in(held, layout, opened.variables);
    let eq_batch = rows_at(held, layout.batching_start() + width);
    closing_of(point, opened, eq_batch, alpha, z, &mut scratch[..3 * width])
}

// The tensor that the stretch holds, to be sent.
pub fn tensor<L: Level>(memory: &[L], layout: Layout<L>) -> PerCoordinate<'_, L>
    requires { layout_end L.Level.log layout.variables ≤ length memory.now }
    ensures { result.elements.now ≡ part (tensor_start L.Level.log layout.variables) (width L.Level.log) memory.now }
{
    PerCoordinate {
        elements: rows_at(memory, layout.tensor_start()),
    }
}

// The carry and the last that the stretch holds, to be sent: there exactly where the view's rows are longer than one element.
pub fn successor_tensors<'a, L: Level>(
    memory: &'a [L],
    layout: Layout<L>,
    opened: Opened,
) -> Option<SuccessorTensors<'a, 'a, L>>
    requires room { layout_end L.Level.log layout.variables ≤ length memory.now }
    requires stands { Stands L.Level layout.variables opened memory.now }
    ensures sent { is_some result ≡ is_some (kept L.Level.log opened.view) }
    ensures carry { IfSome result (λ t. t.carry.elements.now ≡ part (carry_start L.Level.log layout.variables) (width L.Level.log) memory.now) }
    ensures last { IfSome result (λ t. t.last.elements.now ≡ part (last_start L.Level.log layout.variables) (width L.Level.log) memory.now) }
{
    let reduction = opening_at(point_in(memory, layout, opened.variables), opened);
    if !reduction.sends_successor_tensors() {
        return None;
    }
    let start = layout.carry_start();
    let carry = rows_at(memory, start);
    let last = rows_at(memory, start + width::<L>());
    Some(SuccessorTensors {
        carry: PerCoordinate { elements: carry },
        last: PerCoordinate { elements: last },
    })
}

// The packed elements of the slot of the opening that the stretch holds.
pub fn slot_elements<'a, L: Level>(memory: &'a [L], layout: Layout<L>, opened: Opened) -> &'a [L]
    requires room { layout_end L.Level.log layout.variables ≤ length memory.now }
    requires stands { Stands L.Level layout.variables opened memory.now }
    ensures elements { let o = opening_in L.Level layout.variables opened memory.now in result.now ≡ part (slot_start L.arithmetic o) (slot_count L.arithmetic o) memory.now }
    ensures count { length result.now ≡ slot_count L.arithmetic (opening_in L.Level layout.variables opened memory.now) }
{
    let reduction = opening_at(point_in(memory, layout, opened.variables), opened);
    let start = reduction.slot_start();
    part_at(memory, start, slot_entries(&reduction))
}

// The weights of the slot of the opening that the stretch holds, once it is batched.
pub fn weights<'a, L: Level>(memory: &'a [L], layout: Layout<L>, opened: Opened) -> &'a [L]
    requires room { layout_end L.Level.log layout.variables ≤ length memory.now }
    requires stands { Stands L.Level layout.variables opened memory.now }
    ensures weights { result.now ≡ weights_in L.Level layout.variables opened memory.now }
    ensures count { length result.now ≡ slot_count L.arithmetic (opening_in L.Level layout.variables opened memory.now) }
{
    let reduction = opening_at(point_in(memory, layout, opened.variables), opened);
    let start = layout.weights_start();
    part_at(memory, start, slot_entries(&reduction))
}
