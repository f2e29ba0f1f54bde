// The operations at any level of at most 128 coordinates, over the slices that an exported function is lent.
ghost use Rattle.std.specs.Prelude.{◌≡◌, ℕ, ◌+◌, ◌*◌, ◌%◌, ◌^◌, ◌<◌, ◌≤◌, length, Some as some, None as none};
ghost use Rattle.level.specs.Bytes.{num_bytes};
ghost use Rattle.level.specs.Element.{width};
ghost use Rattle.multilinear.specs.Lent.{lent};
ghost use Rattle.tensor_algebra.specs.Tensor.{nothing};
ghost use Rattle.folding.specs.Folds.{shifted as shifted_of};
ghost use Rattle.bench_reduction.specs.Answers.{PowerOfTwo, tensor_over, carry_over, last_over, weight_over};

use columns::Columns;
use coordinates::per_coordinate::PerCoordinate;
use equality::factored::FactoredEquality;
use folding::slot_table::SlotTable;
use level::level::Level;
use weights::combined::combine_weights;
use weights::settled::settled_weights;

// Packed elements beside the table that two factors hold, an entry for each element.
fn slot_table<'a, L: Level>(values: &'a [L], outer: &'a [L], inner: &'a [L]) -> SlotTable<'a, L>
    requires narrow { L.Level.log ≤ 7 }
    requires block { PowerOfTwo (length inner.now) }
    requires values { length values.now ≡ length outer.now * length inner.now }
    ensures values { result.values.now ≡ values.now }
    ensures outer { result.equality.outer.now ≡ outer.now }
    ensures inner { result.equality.inner.now ≡ inner.now }
{
    SlotTable::of_packed(values, 0, FactoredEquality::new(outer, inner))
}

// The tensor of packed elements beside the table that two factors hold.
pub(crate) fn tensor<'a, L: Level>(
    values: &'a [L],
    outer: &'a [L],
    inner: &'a [L],
    rows: &mut [L],
    scratch: &mut [L],
)
    requires narrow { L.Level.log ≤ 7 }
    requires block { PowerOfTwo (length inner.now) }
    requires values { length values.now ≡ length outer.now * length inner.now }
    requires rows { length rows.old ≡ width L.Level.log }
    requires scratch { length scratch.old ≡ 256 * num_bytes L.Level.log + width L.Level.log }
    ensures rows { lent L.means rows.new ≡ tensor_over L.Level outer.now inner.now values.now }
    ensures scratch { lent L.means scratch.new ≡ nothing }
{
    slot_table(values, outer, inner).tensor(rows, scratch);
}

// The carry of packed elements beside that table, over columns of 2^kept entries.
pub(crate) fn carry<'a, L: Level>(
    values: &'a [L],
    outer: &'a [L],
    inner: &'a [L],
    kept: usize,
    shifted: &mut [L],
    rows: &mut [L],
    scratch: &mut [L],
)
    requires narrow { L.Level.log ≤ 7 }
    requires short { kept < 64 }
    requires block { PowerOfTwo (length inner.now) }
    requires values { length values.now ≡ length outer.now * length inner.now }
    requires shifted { length shifted.old ≡ length inner.now }
    requires rows { length rows.old ≡ width L.Level.log }
    requires scratch { length scratch.old ≡ 256 * num_bytes L.Level.log + width L.Level.log }
    ensures rows { lent L.means rows.new ≡ carry_over L.Level outer.now inner.now values.now kept }
    ensures shifted { (j : ℕ) → j < length inner.now → lent L.means shifted.new j ≡ shifted_of kept (lent L.means inner.now) j }
    ensures scratch { lent L.means scratch.new ≡ nothing }
{
    slot_table(values, outer, inner).carry(Columns::new(kept), shifted, rows, scratch);
}

// The last of packed elements beside that table, over columns of 2^kept entries.
pub(crate) fn last<'a, L: Level>(
    values: &'a [L],
    outer: &'a [L],
    inner: &'a [L],
    kept: usize,
    rows: &mut [L],
)
    requires narrow { L.Level.log ≤ 7 }
    requires short { kept < 64 }
    requires block { PowerOfTwo (length inner.now) }
    requires values { length values.now ≡ length outer.now * length inner.now }
    requires columns { length values.now % 2 ^ kept ≡ 0 }
    requires rows { length rows.old ≡ width L.Level.log }
    ensures { lent L.means rows.new ≡ last_over L.Level outer.now inner.now values.now kept }
{
    slot_table(values, outer, inner).last(Columns::new(kept), rows);
}

// The weights of the table that two factors hold, without a challenge.
#[tactic(auto, using(weights::proofs::Weighing::weighed_plain))]
pub(crate) fn weights<'a, L: Level>(
    table: &mut [L],
    outer: &'a [L],
    inner: &'a [L],
    eq_batch: &[L],
    scratch: &mut [L],
)
    requires narrow { L.Level.log ≤ 7 }
    requires block { PowerOfTwo (length inner.now) }
    requires table { length table.old ≡ length outer.now * length inner.now }
    requires batching { length eq_batch.now ≡ width L.Level.log }
    requires scratch { length scratch.old ≡ 512 * num_bytes L.Level.log }
    ensures weights { (i : ℕ) → i < length table.old → lent L.means table.new i ≡ weight_over L.Level outer.now inner.now eq_batch.now 0 none i }
    ensures scratch { lent L.means scratch.new ≡ nothing }
{
    let equality = FactoredEquality::new(outer, inner);
    let eq_batch = PerCoordinate { elements: eq_batch };
    settled_weights(table, &equality, eq_batch, scratch);
}

// The weights of that table under a challenge, over columns of 2^kept entries.
#[tactic(auto, using(weights::proofs::Weighing::weighed_stepped))]
pub(crate) fn challenged_weights<'a, L: Level>(
    table: &mut [L],
    outer: &'a [L],
    inner: &'a [L],
    eq_batch: &[L],
    kept: usize,
    challenge: L,
    scratch: &mut [L],
)
    requires narrow { L.Level.log ≤ 7 }
    requires short { kept < 64 }
    requires block { PowerOfTwo (length inner.now) }
    requires table { length table.old ≡ length outer.now * length inner.now }
    requires columns { length table.old % 2 ^ kept ≡ 0 }
    requires batching { length eq_batch.now ≡ width L.Level.log }
    requires scratch { length scratch.old ≡ 512 * num_bytes L.Level.log }
    ensures weights { (i : ℕ) → i < length table.old → lent L.means table.new i ≡ weight_over L.Level outer.now inner.now eq_batch.now kept (some (L.means challenge)) i }
    ensures scratch { lent L.means scratch.new ≡ nothing }
{
    let equality = FactoredEquality::new(outer, inner);
    let eq_batch = PerCoordinate { elements: eq_batch };
    settled_weights(table, &equality, eq_batch, scratch);
    combine_weights(table, Columns::new(kept), challenge);
}
