ghost use Rattle.std.specs.Prelude.{◌≡◌, ◌≤◌, ◌++◌, length, string_bytes, IfOk, OnOk};
ghost use Rattle.refusals.specs.Refusals.{ring_switch_refusal, refused};
ghost use Rattle.report_lines.specs.Opened.{open_refusal, values_of};
ghost use Rattle.report_lines.specs.Report.{opening_text};

use crate::lines::{line, optional_line};
use element_text::element::Shown;
use level::level::Level;
use opening::bit_ring_switch::BitRingSwitch;
use refusals::faults::BitRingSwitchError;
use refusals::steps::{check_opening, check_width};
use std::alloc::AllocError;

// The opening of 2^variables packed elements at a point under the view that there may be. The point is measured before it is opened, since
// an opening has fewer than 64 coordinates, and an input any number.
pub fn open<L: Level>(
    variables: usize,
    point: &[L],
    view: Option<usize>,
) -> Result<BitRingSwitch<'_, L>, BitRingSwitchError>
    requires { (L.Level.log ≤ 7) × (variables ≤ 24) }
    ensures refusal { refused ring_switch_refusal result ≡ open_refusal L.Level.log variables (length point.now) view }
    ensures point { IfOk result (λ o. o.point.now ≡ point.now) }
    ensures view { IfOk result (λ o. o.view ≡ view) }
{
    check_opening::<L>(point.len(), view)?;
    check_width(point.len() - usize::from(L::log_width()), variables)?;
    BitRingSwitch::with_view(point, view)
}

// The values of an opening.
#[derive(Drop)]
pub struct OpeningValues<L> {
    pub incoming: L,
    // Where there is a view.
    pub successor: Option<L>,
    // How many leading coordinates select the slot, and the address that they spell.
    pub prefix: (usize, usize),
}

// Adds the lines of an opening.
#[tactic(auto, unfolding(crate::specs::Report::opening_text))]
pub fn opening_lines<L: Level>(
    out: &mut String,
    values: &OpeningValues<L>,
) -> Result<(), AllocError>
    ensures { OnOk result (string_bytes out.new ≡ string_bytes out.old ++ opening_text (values_of L.means values.now)) }
{
    line(out, "incoming", Shown(values.incoming))?;
    optional_line(out, "successor", values.successor)?;
    let (count, address) = values.prefix;
    line(out, "prefix", count)?;
    line(out, "address", address)
}
