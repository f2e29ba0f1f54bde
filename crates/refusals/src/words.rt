// The words for each fault: those of p3-sumcheck 0.8.0 for each that it has.
ghost use Rattle.std.specs.Prelude.{Some};
ghost use Rattle.refusals.specs.Words.{packing_words, ring_switch_words, refusal_words};

use crate::faults::{BitPackingError, BitRingSwitchError, StepRefusal};
use std::error::Error;
use std::fmt;

impl fmt::Display for BitPackingError {
    ghost output = { λ fault. Some (packing_words fault) };

    fn fmt<W: fmt::Write>(&self, f: &mut fmt::Formatter<W>) -> fmt::Result {
        match self {
            BitPackingError::LevelTooWide => write!(f, "a level of over 128 bits cannot pack"),
            BitPackingError::SubByteLevel { bits } => {
                write!(f, "a {bits}-bit level cannot pack a byte's worth of cells")
            }
            BitPackingError::NotAHypercube { cells } => {
                write!(
                    f,
                    "a bit witness covers {cells} cells, which is no hypercube"
                )
            }
            BitPackingError::TooShort { needed, actual } => {
                write!(f, "packing needs at least {needed} bytes, got {actual}")
            }
        }
    }
}

impl Error for BitPackingError {}

impl fmt::Display for BitRingSwitchError {
    ghost output = { λ fault. Some (ring_switch_words fault) };

    fn fmt<W: fmt::Write>(&self, f: &mut fmt::Formatter<W>) -> fmt::Result {
        match self {
            BitRingSwitchError::RowVariables {
                row_variables,
                num_variables,
            } => write!(
                f,
                "the successor view names {row_variables} row variables, the point {num_variables}"
            ),
            BitRingSwitchError::PointTooNarrow { needed, actual } => write!(
                f,
                "the evaluation point names {actual} variables, at least {needed} are needed"
            ),
            BitRingSwitchError::WidthMismatch { expected, actual } => write!(
                f,
                "the reduction runs over {expected} variables, got {actual}"
            ),
            BitRingSwitchError::SuccessorBatching { expected: true } => {
                write!(
                    f,
                    "the batching stage does not fit the reduction, successor challenge expected: true"
                )
            }
            BitRingSwitchError::SuccessorBatching { expected: false } => {
                write!(
                    f,
                    "the batching stage does not fit the reduction, successor challenge expected: false"
                )
            }
            BitRingSwitchError::BatchWidthMismatch { expected, actual } => write!(
                f,
                "the batching challenge names {actual} variables, expected {expected}"
            ),
            BitRingSwitchError::NoSuccessorView => write!(
                f,
                "the reduction was set up without a successor view"
            ),
            BitRingSwitchError::WeightIndex { count, index } => {
                write!(f, "there are {count} weights, none at index {index}")
            }
            BitRingSwitchError::ClosingWidth { expected, actual } => write!(
                f,
                "the slot runs over {expected} variables, the closing point names {actual}"
            ),
        }
    }
}

impl Error for BitRingSwitchError {}

impl fmt::Display for StepRefusal {
    ghost output = { λ refusal. Some (refusal_words refusal) };

    fn fmt<W: fmt::Write>(&self, f: &mut fmt::Formatter<W>) -> fmt::Result {
        match self {
            StepRefusal::Packing(fault) => write!(f, "{fault}"),
            StepRefusal::RingSwitch(fault) => write!(f, "{fault}"),
        }
    }
}

impl Error for StepRefusal {}
