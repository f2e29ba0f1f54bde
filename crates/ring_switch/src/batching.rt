// Batched rows, and the initial sum that they come to.
ghost use Rattle.ring_switch.specs.BatchingLaws.{RowsAreBatched, InitialSumIsWeighted};

// The batched rows of a tensor, a carry and a last are sums over the packed elements.
pub fn rows_are_batched()
    ensures { RowsAreBatched }
{}

// The initial sum is the sum of the packed elements of the slot, each times its weight.
pub fn initial_sum_is_weighted()
    ensures { InitialSumIsWeighted }
{}
