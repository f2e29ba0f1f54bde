// The operations at the tower byte.
ghost use Rattle.std.specs.Prelude.{◌≡◌, ℕ, ◌-◌, ◌*◌, ◌/◌, ◌%◌, ◌^◌, ◌<◌, ◌≤◌, map, length, Some as some, None as none};
ghost use Rattle.multilinear.specs.Equality.{inner_count};
ghost use Rattle.multilinear.specs.Lent.{lent};
ghost use Rattle.tensor_algebra.specs.Tensor.{nothing};
ghost use Rattle.packing.specs.Packing.{Packed};
ghost use Rattle.equality.specs.Tables.{Factors};
ghost use Rattle.folding.specs.Folds.{shifted as shifted_of};
ghost use Rattle.bench_reduction.specs.Answers.{PowerOfTwo, tensor_over, carry_over, last_over, weight_over};
ghost use Rattle.byte_levels.specs.contracts.tower.TowerByteLevel.TheImpl.{ghosts as of};

use crate::operations;
use byte_levels::tower::TowerByte;
use equality::factored::factor;
use level::level::Level;
use packing::pack_elements;

#[unsafe(no_mangle)]
pub extern "C" fn pack_tower_byte(bits: &[u8], elements: &mut [TowerByte]) -> usize
    requires { length bits.now / 1 ≤ length elements.old }
    ensures count { result ≡ length bits.now / 1 }
    ensures packed { Packed of.means bits.now result elements.old elements.new }
{
    pack_elements(bits, elements)
}

#[unsafe(no_mangle)]
pub extern "C" fn factor_tower_byte(
    outer: &mut [TowerByte],
    inner: &mut [TowerByte],
    point: &[TowerByte],
)
    requires outer_len { length outer.old ≡ 2 ^ (length point.now - inner_count (length point.now)) }
    requires inner_len { length inner.old ≡ 2 ^ inner_count (length point.now) }
    ensures { Factors of.means of.arithmetic of.arithmetic.unit (map of.means point.now) outer.new inner.new }
{
    factor(outer, inner, point, TowerByte::one());
}

#[unsafe(no_mangle)]
pub extern "C" fn tensor_tower_byte<'a>(
    values: &'a [TowerByte],
    outer: &'a [TowerByte],
    inner: &'a [TowerByte],
    rows: &mut [TowerByte],
    scratch: &mut [TowerByte],
)
    requires block { PowerOfTwo (length inner.now) }
    requires values { length values.now ≡ length outer.now * length inner.now }
    requires rows { length rows.old ≡ 8 }
    requires scratch { length scratch.old ≡ 264 }
    ensures rows { lent of.means rows.new ≡ tensor_over of outer.now inner.now values.now }
    ensures scratch { lent of.means scratch.new ≡ nothing }
{
    operations::tensor(values, outer, inner, rows, scratch);
}

#[unsafe(no_mangle)]
pub extern "C" fn carry_tower_byte<'a>(
    values: &'a [TowerByte],
    outer: &'a [TowerByte],
    inner: &'a [TowerByte],
    kept: usize,
    shifted: &mut [TowerByte],
    rows: &mut [TowerByte],
    scratch: &mut [TowerByte],
)
    requires short { kept < 64 }
    requires block { PowerOfTwo (length inner.now) }
    requires values { length values.now ≡ length outer.now * length inner.now }
    requires shifted { length shifted.old ≡ length inner.now }
    requires rows { length rows.old ≡ 8 }
    requires scratch { length scratch.old ≡ 264 }
    ensures rows { lent of.means rows.new ≡ carry_over of outer.now inner.now values.now kept }
    ensures shifted { (j : ℕ) → j < length inner.now → lent of.means shifted.new j ≡ shifted_of kept (lent of.means inner.now) j }
    ensures scratch { lent of.means scratch.new ≡ nothing }
{
    operations::carry(values, outer, inner, kept, shifted, rows, scratch);
}

#[unsafe(no_mangle)]
pub extern "C" fn last_tower_byte<'a>(
    values: &'a [TowerByte],
    outer: &'a [TowerByte],
    inner: &'a [TowerByte],
    kept: usize,
    rows: &mut [TowerByte],
)
    requires short { kept < 64 }
    requires block { PowerOfTwo (length inner.now) }
    requires values { length values.now ≡ length outer.now * length inner.now }
    requires columns { length values.now % 2 ^ kept ≡ 0 }
    requires rows { length rows.old ≡ 8 }
    ensures { lent of.means rows.new ≡ last_over of outer.now inner.now values.now kept }
{
    operations::last(values, outer, inner, kept, rows);
}

#[unsafe(no_mangle)]
pub extern "C" fn weights_tower_byte<'a>(
    table: &mut [TowerByte],
    outer: &'a [TowerByte],
    inner: &'a [TowerByte],
    eq_batch: &[TowerByte],
    scratch: &mut [TowerByte],
)
    requires block { PowerOfTwo (length inner.now) }
    requires table { length table.old ≡ length outer.now * length inner.now }
    requires batching { length eq_batch.now ≡ 8 }
    requires scratch { length scratch.old ≡ 512 }
    ensures weights { (i : ℕ) → i < length table.old → lent of.means table.new i ≡ weight_over of outer.now inner.now eq_batch.now 0 none i }
    ensures scratch { lent of.means scratch.new ≡ nothing }
{
    operations::weights(table, outer, inner, eq_batch, scratch);
}

#[unsafe(no_mangle)]
pub extern "C" fn challenged_weights_tower_byte<'a>(
    table: &mut [TowerByte],
    outer: &'a [TowerByte],
    inner: &'a [TowerByte],
    eq_batch: &[TowerByte],
    kept: usize,
    challenge: &TowerByte,
    scratch: &mut [TowerByte],
)
    requires short { kept < 64 }
    requires block { PowerOfTwo (length inner.now) }
    requires table { length table.old ≡ length outer.now * length inner.now }
    requires columns { length table.old % 2 ^ kept ≡ 0 }
    requires batching { length eq_batch.now ≡ 8 }
    requires scratch { length scratch.old ≡ 512 }
    ensures weights { (i : ℕ) → i < length table.old → lent of.means table.new i ≡ weight_over of outer.now inner.now eq_batch.now kept (some (of.means challenge.now)) i }
    ensures scratch { lent of.means scratch.new ≡ nothing }
{
    operations::challenged_weights(table, outer, inner, eq_batch, kept, *challenge, scratch);
}
