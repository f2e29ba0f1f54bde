// The steps over slices that know no layout.
ghost use Rattle.std.specs.Prelude.{◌≡◌, ℕ, ◌+◌, ◌-◌, ◌*◌, ◌%◌, ◌^◌, ◌<◌, ◌≤◌, map, length, take, drop, is_some};
ghost use Rattle.std.specs.Option.{option_map};
ghost use Rattle.level.specs.Bytes.{num_bytes};
ghost use Rattle.level.specs.Element.{width};
ghost use Rattle.multilinear.specs.Lent.{lent};
ghost use Rattle.ring_switch.specs.Opening.{kept, low, rest};
ghost use Rattle.ring_switch.specs.Slots.{slot_count};
ghost use Rattle.equality.specs.Tables.{Tabulated};
ghost use Rattle.folding.specs.Openings.{SlotOpens};
ghost use Rattle.reduction.specs.Layout.{outer_entries, inner_entries};
ghost use Rattle.reduction.specs.Stretch.{Fits, opening_at as opening_of_point};
ghost use Rattle.reduction.specs.Worked.{BeginFactors, BeginWeights, tensor_at, carry_at, last_at};

use crate::opened::Opened;
use crate::parts::{batch_at, inner_entries, opening_at, outer_entries, slot_entries};
use equality::factored::{FactoredEquality, factor};
use equality::table::equality_table;
use folding::slot_table::SlotTable;
use level::level::Level;
use weights::weights::weights_over;

// Writes the factors of a point's equality table to the front of two slices.
fn factors_into<L: Level>(outers: &mut [L], inners: &mut [L], point: &[L])
    requires short { length point.now < 64 }
    requires outers { outer_entries (length point.now) ≤ length outers.old }
    requires inners { inner_entries (length point.now) ≤ length inners.old }
    ensures { BeginFactors L.means L.arithmetic (map L.means point.now) outers.new inners.new }
{
    let outer = &mut outers[..outer_entries(point.len())];
    let inner = &mut inners[..inner_entries(point.len())];
    factor(outer, inner, point, L::one());
}

// Writes the factors of the equality table of a slot to the front of two slices, each with room for every packed element.
pub(crate) fn slot_factors<L: Level>(
    point: &[L],
    opened: Opened,
    outers: &mut [L],
    inners: &mut [L],
)
    requires narrow { L.Level.log ≤ 7 }
    requires few { opened.variables < 64 }
    requires fits { Fits L.Level opened point.now }
    requires outers { 2 ^ (opened.variables - L.Level.log) ≤ length outers.old }
    requires inners { 2 ^ (opened.variables - L.Level.log) ≤ length inners.old }
    ensures { BeginFactors L.means L.arithmetic (rest L.arithmetic (opening_of_point L.Level opened point.now)) outers.new inners.new }
{
    let reduction = opening_at(point, opened);
    factors_into(outers, inners, reduction.rest());
}

// The slot that starts at a place of the packed elements, over the factors of its equality table.
fn slot_of<'a, L: Level>(
    packed: &'a [L],
    start: usize,
    outer: &'a [L],
    inner: &'a [L],
) -> SlotTable<'a, L>
    requires narrow { L.Level.log ≤ 7 }
    requires block { (e : ℕ) × (length inner.now ≡ 2 ^ e) }
    requires within { start + length outer.now * length inner.now ≤ length packed.now }
    ensures outer { result.equality.outer.now ≡ outer.now }
    ensures inner { result.equality.inner.now ≡ inner.now }
    ensures values { result.values.now ≡ take (length outer.now * length inner.now) (drop start packed.now) }
{
    SlotTable::of_packed(packed, start, FactoredEquality::new(outer, inner))
}

// The factors of the slot of an opening, at the front of two slices, and the slot of the packed elements over them.
fn slot_at<'a, L: Level>(
    packed: &'a [L],
    point: &[L],
    opened: Opened,
    outers: &'a [L],
    inners: &'a [L],
) -> SlotTable<'a, L>
    requires narrow { L.Level.log ≤ 7 }
    requires few { opened.variables < 64 }
    requires fits { Fits L.Level opened point.now }
    requires packed { length packed.now ≡ 2 ^ (opened.variables - L.Level.log) }
    requires factors { BeginFactors L.means L.arithmetic (rest L.arithmetic (opening_of_point L.Level opened point.now)) outers.now inners.now }
    ensures { SlotOpens L.Level result (opening_of_point L.Level opened point.now) (lent L.means packed.now) }
{
    let reduction = opening_at(point, opened);
    let variables = reduction.rest().len();
    slot_of(
        packed,
        reduction.slot_start(),
        &outers[..outer_entries(variables)],
        &inners[..inner_entries(variables)],
    )
}

// Folds the tensor of the packed elements at an opening, from the factors of its slot.
pub(crate) fn fold_tensor<L: Level>(
    packed: &[L],
    point: &[L],
    opened: Opened,
    outers: &[L],
    inners: &[L],
    rows: &mut [L],
    scratch: &mut [L],
)
    requires narrow { L.Level.log ≤ 7 }
    requires few { opened.variables < 64 }
    requires fits { Fits L.Level opened point.now }
    requires packed { length packed.now ≡ 2 ^ (opened.variables - L.Level.log) }
    requires factors { BeginFactors L.means L.arithmetic (rest L.arithmetic (opening_of_point L.Level opened point.now)) outers.now inners.now }
    requires rows { length rows.old ≡ width L.Level.log }
    requires scratch { length scratch.old ≡ 256 * num_bytes L.Level.log + width L.Level.log }
    ensures { lent L.means rows.new ≡ tensor_at L.arithmetic (opening_of_point L.Level opened point.now) (lent L.means packed.now) }
{
    slot_at(packed, point, opened, outers, inners).tensor(rows, scratch);
}

// Folds the carry over the columns of an opening's row variables. `shifted` has room for the inner factor.
pub(crate) fn fold_carry<L: Level>(
    packed: &[L],
    point: &[L],
    opened: Opened,
    outers: &[L],
    inners: &[L],
    rows: &mut [L],
    shifted: &mut [L],
    scratch: &mut [L],
)
    requires narrow { L.Level.log ≤ 7 }
    requires few { opened.variables < 64 }
    requires fits { Fits L.Level opened point.now }
    requires packed { length packed.now ≡ 2 ^ (opened.variables - L.Level.log) }
    requires factors { BeginFactors L.means L.arithmetic (rest L.arithmetic (opening_of_point L.Level opened point.now)) outers.now inners.now }
    requires rows { length rows.old ≡ width L.Level.log }
    requires shifted { 2 ^ (opened.variables - L.Level.log) ≤ length shifted.old }
    requires scratch { length scratch.old ≡ 256 * num_bytes L.Level.log + width L.Level.log }
    ensures { lent L.means rows.new ≡ carry_at L.arithmetic (opening_of_point L.Level opened point.now) (lent L.means packed.now) }
{
    let columns = opening_at(point, opened).columns();
    let slot = slot_at(packed, point, opened, outers, inners);
    let (shifted, _) = shifted.split_at_mut(slot.equality.block_len());
    slot.carry(columns, shifted, rows, scratch);
}

// Folds the last over the same columns.
pub(crate) fn fold_last<L: Level>(
    packed: &[L],
    point: &[L],
    opened: Opened,
    outers: &[L],
    inners: &[L],
    rows: &mut [L],
)
    requires narrow { L.Level.log ≤ 7 }
    requires few { opened.variables < 64 }
    requires fits { Fits L.Level opened point.now }
    requires packed { length packed.now ≡ 2 ^ (opened.variables - L.Level.log) }
    requires factors { BeginFactors L.means L.arithmetic (rest L.arithmetic (opening_of_point L.Level opened point.now)) outers.now inners.now }
    requires rows { length rows.old ≡ width L.Level.log }
    ensures { lent L.means rows.new ≡ last_at L.arithmetic (opening_of_point L.Level opened point.now) (lent L.means packed.now) }
{
    let columns = opening_at(point, opened).columns();
    slot_at(packed, point, opened, outers, inners).last(columns, rows);
}

// Writes the equality table of the coordinates that a packed element absorbs.
pub(crate) fn low_table<L: Level>(point: &[L], opened: Opened, table: &mut [L])
    requires narrow { L.Level.log ≤ 7 }
    requires few { opened.variables < 64 }
    requires fits { Fits L.Level opened point.now }
    requires table { length table.old ≡ width L.Level.log }
    ensures { Tabulated L.means L.arithmetic L.arithmetic.unit (low (opening_of_point L.Level opened point.now)) table.new }
{
    let reduction = opening_at(point, opened);
    equality_table(table, reduction.low(), L::one());
}

// Writes the weights of the slot of an opening to the front of a slice, from the factors of its equality table and the batching table.
pub(crate) fn slot_weights<L: Level>(
    point: &[L],
    opened: Opened,
    table: &[L],
    alpha: Option<L>,
    outers: &[L],
    inners: &[L],
    weights: &mut [L],
    scratch: &mut [L],
)
    requires narrow { L.Level.log ≤ 7 }
    requires few { opened.variables < 64 }
    requires fits { Fits L.Level opened point.now }
    requires table { length table.now ≡ width L.Level.log }
    requires challenged { is_some alpha ≡ is_some (kept L.Level.log opened.view) }
    requires factors { BeginFactors L.means L.arithmetic (rest L.arithmetic (opening_of_point L.Level opened point.now)) outers.now inners.now }
    requires weights { 2 ^ (opened.variables - L.Level.log) ≤ length weights.old }
    requires scratch { length scratch.old ≡ 512 * num_bytes L.Level.log }
    ensures { BeginWeights L.Level opened point.now (lent L.means table.now) (option_map L.means alpha) weights.new }
{
    let batch = batch_at(point, opened, table, alpha);
    let variables = batch.reduction.rest().len();
    let equality = FactoredEquality::new(
        &outers[..outer_entries(variables)],
        &inners[..inner_entries(variables)],
    );
    let (weights, _) = weights.split_at_mut(slot_entries(&batch.reduction));
    weights_over(weights, &equality, &batch, scratch);
}
