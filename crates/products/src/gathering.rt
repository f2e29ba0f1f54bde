// Terms gathered in buckets.
ghost use Rattle.std.specs.Prelude.{◌≡◌, ◌+◌, ◌*◌, ◌<◌, ◌≤◌, length};
ghost use Rattle.level.specs.Bytes.{num_bytes};
ghost use Rattle.multilinear.specs.Lent.{lent};
ghost use Rattle.products.specs.Buckets.{Empty, Added, Bucketed};

use coordinates::num_bytes;
use level::level::Level;

// The place of the bucket for a value of byte j.
fn place(j: usize, value: u8) -> usize
    requires { j < 16 }
    ensures { result ≡ 256 * j + value }
{
    256 * j + usize::from(value)
}

// Adds a ⊗ b: b goes into one bucket of each byte of a.
pub(crate) fn add_term<L: Level>(buckets: &mut [L], a: L, b: L)
    requires narrow { L.Level.log ≤ 7 }
    requires buckets { length buckets.old ≡ 256 * num_bytes L.Level.log }
    ensures { Added (L.means a) (L.means b) (lent L.means buckets.old) (lent L.means buckets.new) }
{
    let values = a.to_bytes();

    // A place of the buckets for each byte, since of what is written through `chunks_exact_mut` a proof knows only the length.
    for (j, value) in values[..num_bytes::<L>()].iter().enumerate() {
        let at = place(j, *value);
        buckets[at] = buckets[at].add(b);
    }
}

// Adds every term left[w] ⊗ right[w] to empty buckets.
pub(crate) fn add_terms<L: Level>(buckets: &mut [L], left: &[L], right: &[L])
    requires narrow { L.Level.log ≤ 7 }
    requires buckets { length buckets.old ≡ 256 * num_bytes L.Level.log }
    requires empty { Empty (lent L.means buckets.old) }
    requires terms { length right.now ≡ length left.now }
    ensures { Bucketed (lent L.means left.now) (lent L.means right.now) (length left.now) (lent L.means buckets.new) }
{
    // An index into the right factors, since a zip of the two takes a fifth longer.
    for (w, a) in left.iter().enumerate() {
        add_term(buckets, *a, right[w]);
    }
}
