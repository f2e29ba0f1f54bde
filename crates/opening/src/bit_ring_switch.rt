ghost use Rattle.std.specs.Prelude.{◌≡◌, ◌<◌, ◌≤◌, map, length};
ghost use Rattle.ring_switch.specs.Opening.{named, prefix as prefix_of};

use crate::prefix::{leading_run, past, prefix_limit};
use columns::Columns;
use level::level::Level;
use refusals::faults::BitRingSwitchError;
use refusals::steps::{check_batching, check_closing, check_opening, check_width};
use std::alloc::AllocError;

// The reduction of the claim on a table of bits at one point, over a level of at most 128 coordinates, as `BitRingSwitch` of p3-sumcheck's
// reduction.rs: the point, whose first coordinate is at the most significant bit of an index, and the view, which names how many trailing
// coordinates are row variables, or none. `prefix` is how many leading coordinates select the slot, and the address that they spell, most
// significant first.
pub struct BitRingSwitch<'a, L: Level> {
    pub point: &'a [L],
    pub view: Option<usize>,
    pub prefix: (usize, usize),
    pub ghost narrow: { L.Level.log ≤ 7 },
    pub ghost absorbs: { L.Level.log ≤ length point.now },
    pub ghost few: { length point.now < 64 },
    pub ghost rows: { named view ≤ length point.now },
    pub ghost counted: { prefix.0 ≡ (prefix_of L.arithmetic (record { point = map L.means point.now; view = view })).count },
    pub ghost spelt: { prefix.1 ≡ (prefix_of L.arithmetic (record { point = map L.means point.now; view = view })).address },
}

// By hand, since a generic struct with a ghost field derives no `Clone`.
impl<'a, L: Level> Clone for BitRingSwitch<'a, L> {
    ghost is_clone = { λ x y. y ≡ x };

    fn clone(&self) -> Result<BitRingSwitch<'a, L>, AllocError> {
        Ok(*self)
    }
}

impl<'a, L: Level> Copy for BitRingSwitch<'a, L> {}

impl<'a, L: Level> BitRingSwitch<'a, L> {
    ghost use Rattle.std.specs.Prelude.{◌+◌, ◌-◌, ◌*◌, ◌^◌, take, drop, is_some, Some, None, IfOk};
    ghost use Rattle.std.specs.Option.{option_map};
    ghost use Rattle.level.specs.Element.{width};
    ghost use Rattle.ring_switch.specs.Opening.{variables, high, low, kept, kept_rows, limit, rest, slot_start};
    ghost use Rattle.refusals.specs.Refusals.{ring_switch_refusal, refused};
    ghost use Rattle.refusals.specs.Steps.{opening, width as width_refusal, batching, closing};
    ghost use Rattle.opening.specs.Openings.{opening_of};

    // How many coordinates one packed element absorbs: the level's log width.
    pub fn absorbed() -> usize
        requires { L.Level.log ≤ 7 }
        ensures { result ≡ L.Level.log }
    {
        usize::from(L::log_width())
    }

    // The opening at a point without a view. It is refused where the point is narrower than one element absorbs.
    pub fn new(point: &'a [L]) -> Result<BitRingSwitch<'a, L>, BitRingSwitchError>
        requires narrow { L.Level.log ≤ 7 }
        requires few { length point.now < 64 }
        ensures refusal { refused ring_switch_refusal result ≡ opening L.Level.log (length point.now) None }
        ensures point { IfOk result (λ o. o.point.now ≡ point.now) }
        ensures view { IfOk result (λ o. o.view ≡ None) }
    {
        Self::with_view(point, None)
    }

    // The opening at a point under a view. It is refused where the view names more row variables than the point has coordinates, and then
    // as one without a view.
    pub fn with_successor(
        point: &'a [L],
        row_variables: usize,
    ) -> Result<BitRingSwitch<'a, L>, BitRingSwitchError>
        requires narrow { L.Level.log ≤ 7 }
        requires few { length point.now < 64 }
        ensures refusal { refused ring_switch_refusal result ≡ opening L.Level.log (length point.now) (Some row_variables) }
        ensures point { IfOk result (λ o. o.point.now ≡ point.now) }
        ensures view { IfOk result (λ o. o.view ≡ Some row_variables) }
    {
        Self::with_view(point, Some(row_variables))
    }

    // The opening at a point under the view that there may be.
    pub fn with_view(
        point: &'a [L],
        view: Option<usize>,
    ) -> Result<BitRingSwitch<'a, L>, BitRingSwitchError>
        requires narrow { L.Level.log ≤ 7 }
        requires few { length point.now < 64 }
        ensures refusal { refused ring_switch_refusal result ≡ opening L.Level.log (length point.now) view }
        ensures point { IfOk result (λ o. o.point.now ≡ point.now) }
        ensures view { IfOk result (λ o. o.view ≡ view) }
    {
        check_opening::<L>(point.len(), view)?;
        let prefix = leading_run(&point[..prefix_limit::<L>(point.len(), view)]);
        Ok(BitRingSwitch {
            point,
            view,
            prefix,
        })
    }

    // How many variables the packed table has: those that the packing keeps.
    pub fn num_variables(&self) -> usize
        ensures { result ≡ variables (opening_of L.Level self.now) }
    {
        self.point.len() - Self::absorbed()
    }

    // The coordinates that the packing keeps, which lead the point.
    pub fn high(&self) -> &'a [L]
        ensures part { result.now ≡ take (length self.now.point.now - L.Level.log) self.now.point.now }
        ensures high { map L.means result.now ≡ high (opening_of L.Level self.now) }
    {
        &self.point[..self.num_variables()]
    }

    // The coordinates that one packed element absorbs: the last of the point.
    pub fn low(&self) -> &'a [L]
        ensures part { result.now ≡ drop (length self.now.point.now - L.Level.log) self.now.point.now }
        ensures low { map L.means result.now ≡ low (opening_of L.Level self.now) }
        ensures len { length result.now ≡ L.Level.log }
    {
        let (_, low) = self.point.split_at(self.num_variables());
        low
    }

    // How many row variables of the view the packing keeps, where it keeps any.
    pub fn kept_row_variables(&self) -> Option<usize>
        ensures { result ≡ kept L.Level.log self.now.view }
    {
        let absorbed = Self::absorbed();
        self.view.and_then(|rows| past(rows, absorbed))
    }

    // Whether the carry and the last are sent beside the tensor: where rows are longer than one element.
    pub fn sends_successor_tensors(&self) -> bool
        ensures { result ≡ is_some (kept L.Level.log self.now.view) }
    {
        self.kept_row_variables().is_some()
    }

    // The columns of packed elements that successor tensors step in, of one element where none are sent.
    pub fn columns(&self) -> Columns
        ensures { result.row_variables ≡ kept_rows (opening_of L.Level self.now) }
    {
        Columns::new(self.kept_row_variables().unwrap_or(0))
    }

    // The leading coordinates that select the slot: how many there are, and the address that they spell.
    pub fn fixed_prefix(&self) -> (usize, usize)
        ensures count { result.0 ≡ (prefix_of L.arithmetic (opening_of L.Level self.now)).count }
        ensures address { result.1 ≡ (prefix_of L.arithmetic (opening_of L.Level self.now)).address }
    {
        self.prefix
    }

    // The coordinates of the slot: the kept ones after the prefix.
    pub fn rest(&self) -> &'a [L]
        ensures rest { map L.means result.now ≡ rest L.arithmetic (opening_of L.Level self.now) }
        ensures len { length result.now ≡ variables (opening_of L.Level self.now) - self.now.prefix.0 }
    {
        let (count, _) = self.prefix;
        let (_, rest) = self.high().split_at(count);
        rest
    }

    // The first packed element of the slot, which holds one for each assignment of its coordinates.
    pub fn slot_start(&self) -> usize
        ensures start { result ≡ slot_start L.arithmetic (opening_of L.Level self.now) }
        ensures within { result + 2 ^ length (rest L.arithmetic (opening_of L.Level self.now)) ≤ 2 ^ variables (opening_of L.Level self.now) }
    {
        let (_, address) = self.prefix;
        address << self.rest().len()
    }

    // Whether a packing of 2^actual elements is over the variables that the packed table has.
    pub fn check_width(&self, actual: usize) -> Result<(), BitRingSwitchError>
        ensures { refused ring_switch_refusal result ≡ width_refusal (variables (opening_of L.Level self.now)) actual }
    {
        check_width(self.num_variables(), actual)
    }

    // Whether a batching fits: it has a challenge exactly where successor tensors are sent, and its point, of so many coordinates, one for
    // each that an element absorbs.
    pub fn check_batching(&self, challenged: bool, actual: usize) -> Result<(), BitRingSwitchError>
        ensures { refused ring_switch_refusal result ≡ batching L.Level.log (is_some (kept L.Level.log self.now.view)) challenged actual }
    {
        check_batching::<L>(self.sends_successor_tensors(), challenged, actual)
    }

    // Whether a closing point of so many coordinates has one for each of the slot's.
    pub fn check_closing(&self, actual: usize) -> Result<(), BitRingSwitchError>
        ensures { refused ring_switch_refusal result ≡ closing (length (rest L.arithmetic (opening_of L.Level self.now))) actual }
    {
        check_closing(self.rest().len(), actual)
    }
}
