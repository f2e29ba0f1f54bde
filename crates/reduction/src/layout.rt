ghost use Rattle.std.specs.Prelude.{◌≡◌, ◌+◌, ◌*◌, ◌^◌, ◌<◌, ◌≤◌};
ghost use Rattle.reduction.specs.Layout.{layout_end, LayoutFits};

use coordinates::{num_bytes, width};
use level::level::Level;
use std::alloc::AllocError;
use std::marker::PhantomData;

// Where the parts of a stretch of elements lie, at a level from a byte to 128 coordinates. They go by the largest number of coordinates,
// n, that a point may have. With C = 2^(n - k), d coordinates and B bytes to an element, in this order: C packed elements, the point (n),
// the outer and the inner factor of the slot's equality table (C each), the tensor, the carry and the last (d each), the equality table
// of the absorbed coordinates (d), the batching point (d, of which k are used) and its equality table (d), the weights (C); behind them what no
// step reads of another: the shifted inner factor (C) and scratch (3·d + 512·B).
pub struct Layout<L: Level> {
    variables: usize,
    level: PhantomData<L>,
    pub ghost wide: { 3 ≤ L.Level.log },
    pub ghost narrow: { L.Level.log ≤ 7 },
    pub ghost absorbs: { L.Level.log ≤ variables },
    pub ghost few: { variables < 48 },
    pub ghost small: { layout_end L.Level.log variables < 2 ^ 64 },
}

// By hand, since a generic struct with a ghost field derives no `Clone`.
impl<L: Level> Clone for Layout<L> {
    ghost is_clone = { λ x y. y ≡ x };

    fn clone(&self) -> Result<Layout<L>, AllocError> {
        Ok(*self)
    }
}

impl<L: Level> Copy for Layout<L> {}

impl<L: Level> Layout<L> {
    ghost use Rattle.std.specs.Prelude.{◌-◌};
    ghost use Rattle.level.specs.Element.{width};
    ghost use Rattle.reduction.specs.Layout.{most, point_start, outer_start, tensor_start, carry_start, low_start, batching_start, weights_start, spare_start, scratch_start};

    // The layout for points of up to so many coordinates.
    pub fn new(variables: usize) -> Layout<L>
        requires level { (3 ≤ L.Level.log) × (L.Level.log ≤ 7) }
        requires variables { (L.Level.log ≤ variables) × (variables < 48) }
        ensures { result.variables ≡ variables }
    {
        Layout {
            variables,
            level: PhantomData,
        }
    }

    // The largest number of coordinates of a point.
    pub fn variables(&self) -> usize
        ensures { result ≡ self.now.variables }
    {
        self.variables
    }

    // How many packed elements there are at most.
    pub fn most(&self) -> usize
        ensures { result ≡ most L.Level.log self.now.variables }
    {
        1 << (self.variables - usize::from(L::log_width()))
    }

    // Where the point stands, behind the packed elements.
    pub(crate) fn point_start(&self) -> usize
        ensures { result ≡ point_start L.Level.log self.now.variables }
    {
        self.most()
    }

    // Where the factors of the slot's equality table stand.
    pub(crate) fn outer_start(&self) -> usize
        ensures { result ≡ outer_start L.Level.log self.now.variables }
    {
        self.point_start() + self.variables
    }

    // Where the tensor stands.
    pub(crate) fn tensor_start(&self) -> usize
        ensures { result ≡ tensor_start L.Level.log self.now.variables }
    {
        self.outer_start() + 2 * self.most()
    }

    // Where the carry stands, and behind it the last.
    pub(crate) fn carry_start(&self) -> usize
        ensures { result ≡ carry_start L.Level.log self.now.variables }
    {
        self.tensor_start() + width::<L>()
    }

    // Where the equality table of the absorbed coordinates stands.
    pub(crate) fn low_start(&self) -> usize
        ensures { result ≡ low_start L.Level.log self.now.variables }
    {
        self.carry_start() + 2 * width::<L>()
    }

    // Where the batching point stands, and behind it its equality table.
    pub(crate) fn batching_start(&self) -> usize
        ensures { result ≡ batching_start L.Level.log self.now.variables }
    {
        self.low_start() + width::<L>()
    }

    // Where the weights stand.
    pub(crate) fn weights_start(&self) -> usize
        ensures { result ≡ weights_start L.Level.log self.now.variables }
    {
        self.batching_start() + 2 * width::<L>()
    }

    // Where what no step reads of another begins.
    pub fn spare_start(&self) -> usize
        ensures { result ≡ spare_start L.Level.log self.now.variables }
    {
        self.weights_start() + self.most()
    }

    // Where scratch begins.
    pub(crate) fn scratch_start(&self) -> usize
        ensures { result ≡ scratch_start L.Level.log self.now.variables }
    {
        self.spare_start() + self.most()
    }

    // How many elements the stretch must have.
    pub fn len(&self) -> usize
        ensures { result ≡ layout_end L.Level.log self.now.variables }
    {
        self.scratch_start() + 3 * width::<L>() + 512 * num_bytes::<L>()
    }
}

// The layout ends within n + 6·2^(n - k) + 16·d + 768·B elements, and each part has room for what is written there.
pub fn layouts_fit()
    ensures { LayoutFits }
{}
