// The search for the coordinates that select a slot.
ghost use Rattle.std.specs.Prelude.{◌≡◌, ◌+◌, ◌-◌, ◌*◌, ◌^◌, ◌<◌, ◌≤◌, map, length, if◌then◌else◌, Some, None, nat_lt, MatchOption};
ghost use Rattle.ring_switch.specs.Opening.{selects, run, limit};

use level::level::Level;

// The bit that a coordinate spells in a slot's address: 0 for zero, 1 for one, and none for any other element.
#[tactic(auto, using(crate::proofs::Prefixes::selects_zero, crate::proofs::Prefixes::selects_one, crate::proofs::Prefixes::selects_other))]
fn selector_bit<L: Level>(x: L) -> Option<usize>
    ensures { MatchOption result (selects L.arithmetic (L.means x) ≡ 2) (λ b. (b < 2) × (selects L.arithmetic (L.means x) ≡ b)) }
{
    if x.equals(L::zero()) {
        Some(0)
    } else if x.equals(L::one()) {
        Some(1)
    } else {
        None
    }
}

// How many leading coordinates of a point of n may select a slot: the kept ones, and of these no row coordinate.
#[tactic(auto, using(crate::proofs::Prefixes::limit_by_view))]
pub(crate) fn prefix_limit<L: Level>(n: usize, view: Option<usize>) -> usize
    requires { L.Level.log ≤ 7 }
    ensures { result ≡ limit L.Level.log n view }
{
    let high = n.saturating_sub(usize::from(L::log_width()));
    view.map_or(high, |rows| high.min(n.saturating_sub(rows)))
}

// An address with one more bit at its end.
fn extended(address: usize, bit: usize) -> usize
    requires { 2 * address + bit < 2 ^ 64 }
    ensures { result ≡ 2 * address + bit }
{
    address * 2 + bit
}

// The longest run of leading coordinates that are zero or one: how many there are, and the address that they spell, most significant
// first.
pub(crate) fn leading_run<L: Level>(point: &[L]) -> (usize, usize)
    requires { length point.now ≤ 64 }
    ensures count { result.0 ≡ (run L.arithmetic (map L.means point.now)).count }
    ensures address { result.1 ≡ (run L.arithmetic (map L.means point.now)).address }
{
    let mut count = 0;
    let mut address = 0;
    for x in point {
        let Some(bit) = selector_bit(*x) else {
            break;
        };
        count += 1;
        address = extended(address, bit);
    }
    (count, address)
}

// How far a view's row variables are past those that an element absorbs, where they are past them.
pub(crate) fn past(rows: usize, absorbed: usize) -> Option<usize>
    ensures { result ≡ (if nat_lt absorbed rows then Some (rows - absorbed) else None) }
{
    if rows > absorbed {
        Some(rows - absorbed)
    } else {
        None
    }
}
