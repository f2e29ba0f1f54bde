ghost use Rattle.std.specs.Prelude.{◌≡◌, ◌+◌, ◌*◌, ◌≤◌, length, take, drop};

use equality::factored::FactoredEquality;
use level::level::Level;

// The packed elements of a slot, and the equality table of its coordinates, with an entry for each element, over a level of at most 128
// coordinates.
#[derive(Drop)]
pub struct SlotTable<'a, L: Level> {
    pub values: &'a [L],
    pub equality: FactoredEquality<'a, L>,
    ghost matched: { length values.now ≡ length equality.outer.now * length equality.inner.now },
    ghost narrow: { L.Level.log ≤ 7 },
}

impl<'a, L: Level> SlotTable<'a, L> {
    // The slot that starts at a place of the packed elements.
    pub fn of_packed(
        packed: &'a [L],
        start: usize,
        equality: FactoredEquality<'a, L>,
    ) -> SlotTable<'a, L>
        requires narrow { L.Level.log ≤ 7 }
        requires within { start + length equality.outer.now * length equality.inner.now ≤ length packed.now }
        ensures values { result.values.now ≡ take (length equality.entry.outer.now * length equality.entry.inner.now) (drop start packed.now) }
        ensures equality { result.equality ≡ equality.entry }
    {
        SlotTable {
            values: &packed[start..start + equality.num_evals()],
            equality,
        }
    }
}
