// Rows read out of buckets.
ghost use Rattle.std.specs.Prelude.{◌≡◌, ◌+◌, ◌*◌, ◌^◌, ◌<◌, ◌≤◌, length, slice_set};
ghost use Rattle.level.specs.Bytes.{num_bytes};
ghost use Rattle.level.specs.Element.{width};
ghost use Rattle.multilinear.specs.Lent.{lent};
ghost use Rattle.multilinear.specs.Sums.{sum};
ghost use Rattle.products.specs.Halves.{Halved, of_byte, ByteRead, RowsOf, AllHalved};

use coordinates::{num_bytes, width};
use level::level::Level;

// Adds the upper of two halves of `half` buckets into the lower, and returns the sum of the upper. The number stands beside the buckets, of
// which fewer are read each time: cut to its part, a slice would say the number in the call as well.
fn halve<L: Level>(buckets: &mut [L], half: usize) -> L
    requires { half + half ≤ length buckets.old }
    ensures upper { L.means result ≡ sum half (λ s. lent L.means buckets.old (half + s)) }
    ensures halved { Halved half half (lent L.means buckets.old) (lent L.means buckets.new) }
{
    let (lower, upper) = buckets.split_at_mut(half);
    let mut sum = L::zero();

    // An index into the upper half, since of what is written through a zip with `iter_mut` a proof knows only the length.
    for (s, bucket) in lower.iter_mut().enumerate() {
        let added = upper[s];
        *bucket = bucket.add(added);
        sum = sum.add(added);
    }
    sum
}

// How many values of the bits up to i have bit i set.
fn half(i: usize) -> usize
    requires { i < 8 }
    ensures { result ≡ 2 ^ i }
{
    1 << i
}

// Writes row i, where there is one: an element of fewer than eight coordinates has fewer rows than a byte has bits.
fn write_row<L: Level>(rows: &mut [L], i: usize, row: L)
    ensures { rows.new ≡ slice_set rows.old i row }
{
    if i < rows.len() {
        rows[i] = row;
    }
}

// Reads the rows of one byte out of its buckets, from the highest bit down. It takes 510 additions, two for each value but 0; adding each
// bucket into the rows of its set bits would take 1024.
fn read_byte<L: Level>(buckets: &mut [L], rows: &mut [L])
    requires buckets { length buckets.old ≡ 256 }
    requires rows { length rows.old ≤ 8 }
    ensures { ByteRead (length rows.old) (lent L.means buckets.old) (lent L.means buckets.new) (lent L.means rows.new) }
{
    // Numbers of bits, since of what is written through `iter_mut().rev()` a proof knows only the length.
    for i in (0..8).rev() {
        write_row(rows, i, halve(buckets, half(i)));
    }
}

// Reads all rows out of the buckets, which are left halved.
pub(crate) fn read_rows<L: Level>(buckets: &mut [L], rows: &mut [L])
    requires narrow { L.Level.log ≤ 7 }
    requires buckets { length buckets.old ≡ 256 * num_bytes L.Level.log }
    requires rows { length rows.old ≡ width L.Level.log }
    ensures rows { RowsOf (lent L.means buckets.old) (lent L.means rows.new) }
    ensures halved { AllHalved (λ j. of_byte j (lent L.means buckets.old)) (lent L.means buckets.new) }
{
    let count = width::<L>().min(8);

    // Numbers of bytes, since of what is written through `chunks_exact_mut` a proof knows only the length.
    for j in 0..num_bytes::<L>() {
        read_byte(
            &mut buckets[256 * j..256 * j + 256],
            &mut rows[8 * j..8 * j + count],
        );
    }
}
