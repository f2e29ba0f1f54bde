ghost use Rattle.std.specs.Prelude.{◌≡◌, Some};
ghost use Rattle.explain_input.specs.Messages.{input_message};
ghost use Rattle.explain_input.specs.declared.fault.InputFault.TheVariants.{Letter, Memory};

use crate::key::Key;
use level_name::UnknownLetter;
use std::alloc::AllocError;
use std::error::Error;
use std::fmt;

// Why an input is not read.
#[derive(Clone, Copy, Debug, PartialEq, Eq)]
pub enum InputFault {
    // The line of this number, counted from 1, is the first that is neither empty nor one of a key.
    Line { number: usize },
    // There are several lines of this key.
    Twice { key: Key },
    // There is no line of this key.
    Missing { key: Key },
    // The text of `level` is no letter of a level.
    Letter,
    // The text of `view` is no decimal number below 2^64.
    Number,
    // There is a challenge, but no batching point.
    NoBatching,
    // There was no memory for the input.
    Memory,
}

impl fmt::Display for InputFault {
    ghost output = { λ fault. Some (input_message fault) };

    fn fmt<W: fmt::Write>(&self, f: &mut fmt::Formatter<W>) -> fmt::Result {
        match self {
            InputFault::Line { number } => write!(f, "line {number} has no key"),
            InputFault::Twice { key } => write!(f, "there are several lines of {key}"),
            InputFault::Missing { key } => write!(f, "there is no line of {key}"),
            InputFault::Letter => write!(f, "the level is none of b, w, d, q and a"),
            InputFault::Number => write!(f, "the view is no decimal number below 2^64"),
            InputFault::NoBatching => write!(f, "there is a challenge without batching"),
            InputFault::Memory => write!(f, "no memory for the input"),
        }
    }
}

impl Error for InputFault {}

impl From<UnknownLetter> for InputFault {
    ghost from_gives = { λ e r. r ≡ Letter };

    fn from(_e: UnknownLetter) -> InputFault {
        InputFault::Letter
    }
}

impl From<AllocError> for InputFault {
    ghost from_gives = { λ e r. r ≡ Memory };

    fn from(_e: AllocError) -> InputFault {
        InputFault::Memory
    }
}
