ghost use Rattle.std.specs.Prelude.{◌≡◌, ℕ, ◌-◌, ◌*◌, ◌/◌, ◌%◌, ◌^◌, ◌<◌, ◌≤◌, map, length, take, drop};
ghost use Rattle.level.specs.Element.{zeros};
ghost use Rattle.multilinear.specs.Equality.{inner_count};
ghost use Rattle.multilinear.specs.Lent.{lent};
ghost use Rattle.equality.specs.Tables.{Factors, entries_of};

use crate::table::equality_table;
use level::level::Level;
use std::alloc::AllocError;

// How many of a point's coordinates the inner factor takes at most.
const LOG_BLOCK: usize = 14;

// How many of a point's coordinates the inner factor takes: the last 14, or all if fewer.
pub fn inner_variables(num_variables: usize) -> usize
    ensures { result ≡ inner_count num_variables }
{
    num_variables.min(LOG_BLOCK)
}

// How many the outer factor takes: the others.
pub fn outer_variables(num_variables: usize) -> usize
    ensures { result ≡ num_variables - inner_count num_variables }
{
    num_variables - inner_variables(num_variables)
}

// A point in two, as `split_at` answers it: the coordinates of the outer factor, and those of the inner.
fn halves<L: Level>(point: &[L]) -> (&[L], &[L])
    ensures outer { result.0.now ≡ take (length point.now - inner_count (length point.now)) point.now }
    ensures inner { result.1.now ≡ drop (length point.now - inner_count (length point.now)) point.now }
{
    point.split_at(outer_variables(point.len()))
}

// Writes the two factors of a point's equality table, the inner one begun from a start value. How long the two are stands here and not
// in a type: a struct of two slices that are written would have to promise, of each, that it is the slice that was lent.
pub fn factor<L: Level>(outer: &mut [L], inner: &mut [L], point: &[L], start: L)
    requires outer_len { length outer.old ≡ 2 ^ (length point.now - inner_count (length point.now)) }
    requires inner_len { length inner.old ≡ 2 ^ inner_count (length point.now) }
    ensures { Factors L.means L.arithmetic (L.means start) (map L.means point.now) outer.new inner.new }
{
    let (first, last) = halves(point);
    equality_table(outer, first, L::one());
    equality_table(inner, last, start);
}

// Where an entry stands in a table of blocks: its block, and its place in the block.
#[derive(Clone, Copy)]
struct Position {
    block: usize,
    place: usize,
}

// Where an entry stands in blocks of 2^log_block entries.
fn split_index(index: usize, log_block: u32) -> Position
    requires { log_block < 64 }
    ensures block { result.block ≡ index / 2 ^ log_block }
    ensures place { result.place ≡ index % 2 ^ log_block }
{
    Position {
        block: index >> log_block,
        place: index & ((1 << log_block) - 1),
    }
}

// A table held as an outer factor, with an entry for each block, times an inner factor, with an entry for each place of a block. The
// two factors of a point hold its equality table so.
pub struct FactoredEquality<'a, L> {
    pub outer: &'a [L],
    pub inner: &'a [L],
    log_block: u32,
    ghost block: { length inner.now ≡ 2 ^ log_block },
    ghost few: { log_block < 64 },
}

// By hand, since a generic struct with a ghost field derives no `Clone`.
impl<'a, L> Clone for FactoredEquality<'a, L> {
    ghost is_clone = { λ x y. y ≡ x };

    fn clone(&self) -> Result<FactoredEquality<'a, L>, AllocError> {
        Ok(*self)
    }
}

impl<'a, L> Copy for FactoredEquality<'a, L> {}

impl<'a, L: Level> FactoredEquality<'a, L> {
    // The table that two factors hold, blocks of a power of two of entries.
    pub fn new(outer: &'a [L], inner: &'a [L]) -> FactoredEquality<'a, L>
        requires { (e : ℕ) × (length inner.now ≡ 2 ^ e) }
        ensures outer { result.outer.now ≡ outer.now }
        ensures inner { result.inner.now ≡ inner.now }
    {
        FactoredEquality {
            outer,
            inner,
            log_block: inner.len().trailing_zeros(),
        }
    }

    // How many entries a block has.
    pub fn block_len(&self) -> usize
        ensures { result ≡ length self.now.inner.now }
    {
        self.inner.len()
    }

    // How many entries the table has.
    pub fn num_evals(&self) -> usize
        requires { length self.now.outer.now * length self.now.inner.now < 2 ^ 64 }
        ensures { result ≡ length self.now.outer.now * length self.now.inner.now }
    {
        self.outer.len() * self.block_len()
    }

    // The entry at a position: the product of an entry of each factor.
    fn product(&self, position: Position) -> L
        requires { (position.block < length self.now.outer.now) × (position.place < length self.now.inner.now) }
        ensures { L.means result ≡ L.arithmetic.times (lent L.means self.now.outer.now position.block) (lent L.means self.now.inner.now position.place) }
    {
        self.outer[position.block].mul(self.inner[position.place])
    }

    // The last entry of a block.
    fn last_entry(&self, block: usize) -> L
        requires { block < length self.now.outer.now }
        ensures { L.means result ≡ L.arithmetic.times (lent L.means self.now.outer.now block) (lent L.means self.now.inner.now (length self.now.inner.now - 1)) }
    {
        let place = self.block_len() - 1;
        self.product(Position { block, place })
    }

    // Entry `index` of the table.
    pub fn entry(&self, index: usize) -> L
        requires { index < length self.now.outer.now * length self.now.inner.now }
        ensures { L.means result ≡ entries_of L.means L.arithmetic self.now.outer.now self.now.inner.now index }
    {
        self.product(split_index(index, self.log_block))
    }

    // The entry before block `index` begins, and zero at the first block.
    pub fn before_block(&self, index: usize) -> L
        requires { index ≤ length self.now.outer.now }
        ensures first { index ≡ 0 → L.means result ≡ zeros L.Level.log }
        ensures later { 0 < index → L.means result ≡ entries_of L.means L.arithmetic self.now.outer.now self.now.inner.now (index * length self.now.inner.now - 1) }
    {
        if index == 0 {
            return L::zero();
        }
        self.last_entry(index - 1)
    }
}
