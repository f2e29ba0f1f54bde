ghost use Rattle.std.specs.Prelude.{◌≡◌, ◌<◌, ◌≤◌, map, length, take, is_some};
ghost use Rattle.std.specs.Option.{option_map};
ghost use Rattle.level.specs.Element.{width};
ghost use Rattle.ring_switch.specs.Opening.{named, kept, low, rest};
ghost use Rattle.equality.specs.Tables.{Tabulated};
ghost use Rattle.opening.specs.Openings.{opening_of};
ghost use Rattle.reduction.specs.Layout.{part, point_start, outer_start, tensor_start, carry_start, last_start, low_start, batching_start, layout_end};
ghost use Rattle.reduction.specs.Worked.{Worked, Batched, batching_in, SlotFactors, LowTable, tensor_in, carry_in, last_in};
ghost use Rattle.reduction.specs.Stretch.{Stands, point_in, opening_in, rows_in};

use crate::layout::Layout;
use crate::opened::Opened;
use crate::over::{fold_carry, fold_last, fold_tensor, low_table, slot_factors, slot_weights};
use crate::parts::{factors_in, packed_in, point_in as point_of};
use coordinates::width;
use equality::table::equality_table;
use folding::block::scratch_len;
use level::level::Level;
use opening::bit_ring_switch::BitRingSwitch;
use weights::settled::scratch_len as weights_scratch_len;

// Puts an opening into the stretch: its point is copied to its place.
pub fn open<L: Level>(
    memory: &mut [L],
    layout: Layout<L>,
    reduction: &BitRingSwitch<'_, L>,
) -> Opened
    requires room { layout_end L.Level.log layout.variables ≤ length memory.old }
    requires within { length reduction.now.point.now ≤ layout.variables }
    ensures before { take (point_start L.Level.log layout.variables) memory.new ≡ take (point_start L.Level.log layout.variables) memory.old }
    ensures point { point_in L.Level layout.variables result memory.new ≡ reduction.now.point.now }
    ensures opening { opening_in L.Level layout.variables result memory.new ≡ opening_of L.Level reduction.now }
    ensures stands { Stands L.Level layout.variables result memory.new }
    ensures numbers { (result.variables ≡ length reduction.now.point.now) × (result.view ≡ reduction.now.view) × (result.prefix ≡ reduction.now.prefix) }
{
    let variables = reduction.point.len();
    let start = layout.point_start();
    memory[start..start + variables].copy_from_slice(reduction.point);
    Opened {
        variables,
        view: reduction.view,
        prefix: reduction.prefix,
    }
}

// Forms the factors of the slot's equality table, and the tensor.
fn work_tensor<L: Level>(memory: &mut [L], layout: Layout<L>, opened: Opened)
    requires room { layout_end L.Level.log layout.variables ≤ length memory.old }
    requires stands { Stands L.Level layout.variables opened memory.old }
    ensures before { take (outer_start L.Level.log layout.variables) memory.new ≡ take (outer_start L.Level.log layout.variables) memory.old }
    ensures factors { SlotFactors L.Level layout.variables (rest L.arithmetic (opening_in L.Level layout.variables opened memory.old)) memory.new }
    ensures tensor { rows_in L.Level (tensor_start L.Level.log layout.variables) memory.new ≡ tensor_in L.Level layout.variables opened memory.old }
{
    let most = layout.most();
    let (held, rest) = memory.split_at_mut(layout.outer_start());
    let (outers, rest) = rest.split_at_mut(most);
    let (inners, rest) = rest.split_at_mut(most);
    let (rows, scratch) = rest.split_at_mut(width::<L>());
    let packed = packed_in(held, opened.variables);
    let point = point_of(held, layout, opened.variables);
    let scratch = &mut scratch[..scratch_len::<L>()];
    slot_factors(point, opened, outers, inners);
    fold_tensor(packed, point, opened, outers, inners, rows, scratch);
}

// Forms the carry and the last, over the columns of the row variables that the packing keeps.
fn work_successor<L: Level>(memory: &mut [L], layout: Layout<L>, opened: Opened)
    requires room { layout_end L.Level.log layout.variables ≤ length memory.old }
    requires stands { Stands L.Level layout.variables opened memory.old }
    requires factors { SlotFactors L.Level layout.variables (rest L.arithmetic (opening_in L.Level layout.variables opened memory.old)) memory.old }
    ensures before { take (carry_start L.Level.log layout.variables) memory.new ≡ take (carry_start L.Level.log layout.variables) memory.old }
    ensures carry { rows_in L.Level (carry_start L.Level.log layout.variables) memory.new ≡ carry_in L.Level layout.variables opened memory.old }
    ensures last { rows_in L.Level (last_start L.Level.log layout.variables) memory.new ≡ last_in L.Level layout.variables opened memory.old }
{
    let width = width::<L>();
    let (held, rest) = memory.split_at_mut(layout.carry_start());
    let (carry, rest) = rest.split_at_mut(width);
    let (last, rest) = rest.split_at_mut(width);
    let (shifted, scratch) = rest.split_at_mut(layout.most());
    let packed = packed_in(held, opened.variables);
    let point = point_of(held, layout, opened.variables);
    let (outers, inners) = factors_in(held, layout);
    let scratch = &mut scratch[..scratch_len::<L>()];
    fold_carry(
        packed, point, opened, outers, inners, carry, shifted, scratch,
    );
    fold_last(packed, point, opened, outers, inners, last);
}

// Forms the carry and the last where rows are longer than one element.
fn work_sent<L: Level>(memory: &mut [L], layout: Layout<L>, opened: Opened)
    requires room { layout_end L.Level.log layout.variables ≤ length memory.old }
    requires stands { Stands L.Level layout.variables opened memory.old }
    requires factors { SlotFactors L.Level layout.variables (rest L.arithmetic (opening_in L.Level layout.variables opened memory.old)) memory.old }
    ensures before { take (carry_start L.Level.log layout.variables) memory.new ≡ take (carry_start L.Level.log layout.variables) memory.old }
    ensures carry { L.Level.log < named opened.view → rows_in L.Level (carry_start L.Level.log layout.variables) memory.new ≡ carry_in L.Level layout.variables opened memory.old }
    ensures last { L.Level.log < named opened.view → rows_in L.Level (last_start L.Level.log layout.variables) memory.new ≡ last_in L.Level layout.variables opened memory.old }
{
    let absorbed = usize::from(L::log_width());
    if opened.view.unwrap_or(0) > absorbed {
        work_successor(memory, layout, opened);
    }
}

// Writes the equality table of the coordinates that a packed element absorbs.
fn work_low<L: Level>(memory: &mut [L], layout: Layout<L>, opened: Opened)
    requires room { layout_end L.Level.log layout.variables ≤ length memory.old }
    requires stands { Stands L.Level layout.variables opened memory.old }
    ensures before { take (low_start L.Level.log layout.variables) memory.new ≡ take (low_start L.Level.log layout.variables) memory.old }
    ensures low { LowTable L.Level layout.variables (opening_in L.Level layout.variables opened memory.old) memory.new }
{
    let (held, rest) = memory.split_at_mut(layout.low_start());
    let (table, _) = rest.split_at_mut(width::<L>());
    low_table(point_of(held, layout, opened.variables), opened, table);
}

// Forms the tables and tensors of the opening that the stretch holds, of the packed elements that it holds.
pub fn work<L: Level>(memory: &mut [L], layout: Layout<L>, opened: Opened)
    requires room { layout_end L.Level.log layout.variables ≤ length memory.old }
    requires stands { Stands L.Level layout.variables opened memory.old }
    ensures before { take (outer_start L.Level.log layout.variables) memory.new ≡ take (outer_start L.Level.log layout.variables) memory.old }
    ensures stands { Stands L.Level layout.variables opened memory.new }
    ensures worked { Worked L.Level layout.variables opened memory.new }
{
    work_tensor(memory, layout, opened);
    work_sent(memory, layout, opened);
    work_low(memory, layout, opened);
}

// Puts a batching into the stretch: copies its point, and forms its equality table and the weights of the slot. There is a challenge exactly
// where the carry and the last are sent.
pub fn batch<L: Level>(
    memory: &mut [L],
    layout: Layout<L>,
    opened: Opened,
    batching: &[L],
    alpha: Option<L>,
)
    requires room { layout_end L.Level.log layout.variables ≤ length memory.old }
    requires stands { Stands L.Level layout.variables opened memory.old }
    requires worked { Worked L.Level layout.variables opened memory.old }
    requires batching { length batching.now ≡ L.Level.log }
    requires challenged { is_some alpha ≡ is_some (kept L.Level.log opened.view) }
    ensures before { take (batching_start L.Level.log layout.variables) memory.new ≡ take (batching_start L.Level.log layout.variables) memory.old }
    ensures stands { Stands L.Level layout.variables opened memory.new }
    ensures worked { Worked L.Level layout.variables opened memory.new }
    ensures point { batching_in L.Level layout.variables memory.new ≡ map L.means batching.now }
    ensures batched { Batched L.Level layout.variables opened (option_map L.means alpha) memory.new }
{
    let width = width::<L>();
    let (held, rest) = memory.split_at_mut(layout.batching_start());
    let (place, rest) = rest.split_at_mut(width);
    let (table, rest) = rest.split_at_mut(width);
    let (weights, scratch) = rest.split_at_mut(layout.most());
    let point = point_of(held, layout, opened.variables);
    let (outers, inners) = factors_in(held, layout);
    let (scratch, _) = scratch.split_at_mut(weights_scratch_len::<L>());
    let (place, _) = place.split_at_mut(batching.len());
    place.copy_from_slice(batching);
    equality_table(table, batching, L::one());
    slot_weights(
        point, opened, table, alpha, outers, inners, weights, scratch,
    );
}
