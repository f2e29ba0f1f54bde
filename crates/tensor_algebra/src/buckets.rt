// Sums of exterior products: through buckets, and with their columns scaled.
ghost use Rattle.tensor_algebra.specs.Buckets.{RowsFromBuckets, ColumnsAreScaled};

// A row of a sum of exterior products is a sum of the buckets of one byte.
pub fn rows_from_buckets()
    ensures { RowsFromBuckets }
{}

// A common factor of the first legs scales the columns, so a sum over blocks scales each block's once; and scaled columns are a sum over the rows.
pub fn columns_are_scaled()
    ensures { ColumnsAreScaled }
{}
