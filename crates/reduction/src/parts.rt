// Parts of a stretch, read.
ghost use Rattle.std.specs.Prelude.{◌≡◌, ◌+◌, ◌-◌, ◌*◌, ◌^◌, ◌<◌, ◌≤◌, length, is_some};
ghost use Rattle.level.specs.Element.{width};
ghost use Rattle.reduction.specs.Layout.{part, most, point_start, batching_start, outer_start, inner_start, tensor_start, outer_entries, inner_entries};
ghost use Rattle.ring_switch.specs.Opening.{kept};
ghost use Rattle.ring_switch.specs.Slots.{slot_count};
ghost use Rattle.opening.specs.Openings.{opening_of};
ghost use Rattle.reduction.specs.Stretch.{Fits};

use crate::layout::Layout;
use crate::opened::Opened;
use coordinates::per_coordinate::PerCoordinate;
use coordinates::width;
use equality::factored::{inner_variables, outer_variables};
use level::level::Level;
use opening::batch::BitRingSwitchBatch;
use opening::bit_ring_switch::BitRingSwitch;

// How many entries the outer factor of the equality table of l coordinates has.
pub(crate) fn outer_entries(l: usize) -> usize
    requires { l < 64 }
    ensures { result ≡ outer_entries l }
{
    1 << outer_variables(l)
}

// How many entries the inner factor has.
pub(crate) fn inner_entries(l: usize) -> usize
    requires { l < 64 }
    ensures { result ≡ inner_entries l }
{
    1 << inner_variables(l)
}

// So many elements from a place on.
pub(crate) fn part_at<L: Level>(held: &[L], start: usize, len: usize) -> &[L]
    requires { start + len ≤ length held.now }
    ensures part { result.now ≡ part start len held.now }
    ensures len { length result.now ≡ len }
{
    let (_, rest) = held.split_at(start);
    let (part, _) = rest.split_at(len);
    part
}

// How many packed elements a point of so many coordinates has.
fn count<L: Level>(variables: usize) -> usize
    requires { (L.Level.log ≤ 7) × (variables < 64) }
    ensures { result ≡ 2 ^ (variables - L.Level.log) }
{
    1 << variables.saturating_sub(usize::from(L::log_width()))
}

// The packed elements of a table opened at a point of so many coordinates.
pub(crate) fn packed_in<L: Level>(held: &[L], variables: usize) -> &[L]
    requires narrow { L.Level.log ≤ 7 }
    requires few { variables < 64 }
    requires room { 2 ^ (variables - L.Level.log) ≤ length held.now }
    ensures packed { result.now ≡ part 0 (2 ^ (variables - L.Level.log)) held.now }
    ensures len { length result.now ≡ 2 ^ (variables - L.Level.log) }
{
    part_at(held, 0, count::<L>(variables))
}

// The point, of so many coordinates.
pub(crate) fn point_in<'a, L: Level>(held: &'a [L], layout: Layout<L>, variables: usize) -> &'a [L]
    requires room { point_start L.Level.log layout.variables + variables ≤ length held.now }
    ensures point { result.now ≡ part (point_start L.Level.log layout.variables) variables held.now }
    ensures len { length result.now ≡ variables }
{
    part_at(held, layout.point_start(), variables)
}

// The places of the two factors.
pub(crate) fn factors_in<L: Level>(held: &[L], layout: Layout<L>) -> (&[L], &[L])
    requires room { tensor_start L.Level.log layout.variables ≤ length held.now }
    ensures outer { result.0.now ≡ part (outer_start L.Level.log layout.variables) (most L.Level.log layout.variables) held.now }
    ensures inner { result.1.now ≡ part (inner_start L.Level.log layout.variables) (most L.Level.log layout.variables) held.now }
    ensures outer_len { length result.0.now ≡ most L.Level.log layout.variables }
    ensures inner_len { length result.1.now ≡ most L.Level.log layout.variables }
{
    let most = layout.most();
    let outer = layout.outer_start();
    let inner = outer + most;
    (part_at(held, outer, most), part_at(held, inner, most))
}

// An element for each coordinate of the level, from a place on.
pub(crate) fn rows_at<L: Level>(held: &[L], start: usize) -> &[L]
    requires narrow { L.Level.log ≤ 7 }
    requires room { start + width L.Level.log ≤ length held.now }
    ensures rows { result.now ≡ part start (width L.Level.log) held.now }
    ensures len { length result.now ≡ width L.Level.log }
{
    part_at(held, start, width::<L>())
}

// The opening at a point with these numbers.
pub(crate) fn opening_at<L: Level>(point: &[L], opened: Opened) -> BitRingSwitch<'_, L>
    requires narrow { L.Level.log ≤ 7 }
    requires few { opened.variables < 64 }
    requires fits { Fits L.Level opened point.now }
    ensures point { result.point.now ≡ point.now }
    ensures view { result.view ≡ opened.view }
    ensures prefix { result.prefix ≡ opened.prefix }
{
    BitRingSwitch {
        point,
        view: opened.view,
        prefix: opened.prefix,
    }
}

// How many entries the equality table of the slot has.
pub(crate) fn slot_entries<L: Level>(reduction: &BitRingSwitch<'_, L>) -> usize
    ensures count { result ≡ slot_count L.arithmetic (opening_of L.Level reduction.now) }
    ensures within { result ≤ 2 ^ (length reduction.now.point.now - L.Level.log) }
{
    1 << reduction.rest().len()
}

// The batching of an opening at a point with these numbers.
pub(crate) fn batch_at<'a, L: Level>(
    point: &'a [L],
    opened: Opened,
    eq_batch: &'a [L],
    alpha: Option<L>,
) -> BitRingSwitchBatch<'a, L>
    requires narrow { L.Level.log ≤ 7 }
    requires few { opened.variables < 64 }
    requires fits { Fits L.Level opened point.now }
    requires table { length eq_batch.now ≡ width L.Level.log }
    requires challenged { is_some alpha ≡ is_some (kept L.Level.log opened.view) }
    ensures point { result.reduction.point.now ≡ point.now }
    ensures view { result.reduction.view ≡ opened.view }
    ensures table { result.eq_batch.elements.now ≡ eq_batch.now }
    ensures alpha { result.alpha ≡ alpha }
{
    BitRingSwitchBatch {
        reduction: opening_at(point, opened),
        eq_batch: PerCoordinate { elements: eq_batch },
        alpha,
    }
}
