ghost use Rattle.std.specs.Prelude.{◌≡◌, Some};
ghost use Rattle.report_lines.specs.Messages.{stop_message};
ghost use Rattle.refusals.specs.declared.faults.StepRefusal.TheVariants.{Packing, RingSwitch};
ghost use Rattle.report_lines.specs.declared.stop.Stop.TheVariants.{Refused, Memory};

use refusals::faults::{BitPackingError, BitRingSwitchError, StepRefusal};
use std::alloc::AllocError;
use std::error::Error;
use std::fmt;

// Why the lines of a problem end early.
#[derive(Clone, Copy, Debug, PartialEq, Eq)]
pub enum Stop {
    // A step was refused.
    Refused(StepRefusal),
    // There was no memory for the lines.
    Memory,
}

impl fmt::Display for Stop {
    ghost output = { λ stop. Some (stop_message stop) };

    fn fmt<W: fmt::Write>(&self, f: &mut fmt::Formatter<W>) -> fmt::Result {
        match *self {
            Stop::Refused(refusal) => {
                let number = refusal.number();
                write!(f, "a step is refused by number {number}")
            }
            Stop::Memory => write!(f, "no memory for the lines"),
        }
    }
}

impl Error for Stop {}

impl From<AllocError> for Stop {
    ghost from_gives = { λ _ r. r ≡ Memory };

    fn from(_: AllocError) -> Stop {
        Stop::Memory
    }
}

// One for each error: a generic one would overlap with that of a type for itself.
impl From<BitPackingError> for Stop {
    ghost from_gives = { λ e r. r ≡ Refused (Packing e) };

    fn from(e: BitPackingError) -> Stop {
        Stop::Refused(StepRefusal::Packing(e))
    }
}

impl From<BitRingSwitchError> for Stop {
    ghost from_gives = { λ e r. r ≡ Refused (RingSwitch e) };

    fn from(e: BitRingSwitchError) -> Stop {
        Stop::Refused(StepRefusal::RingSwitch(e))
    }
}
