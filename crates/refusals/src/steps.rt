ghost use Rattle.std.specs.Prelude.{◌≡◌, ◌≤◌};
ghost use Rattle.refusals.specs.Refusals.{packing_refusal, ring_switch_refusal, refused};
ghost use Rattle.refusals.specs.Steps.{told, PowersOfTwo, packing, opening, width, batching, successor, weight, closing};

use crate::faults::{BitPackingError, BitRingSwitchError};
use level::level::Level;

// Whether so many bytes can be packed.
pub fn check_packing<L: Level>(len: usize) -> Result<(), BitPackingError>
    ensures { refused packing_refusal result ≡ packing (told L.Level.log) len }
{
    let log_width = L::log_width();
    if log_width > 7 {
        return Err(BitPackingError::LevelTooWide);
    }
    let bits = 1 << log_width;
    if bits < 8 {
        return Err(BitPackingError::SubByteLevel { bits });
    }
    let cells = 8 * len as u128;
    if !cells.is_power_of_two() {
        let cells = cells.min(u128::from(u64::MAX)) as u64;
        return Err(BitPackingError::NotAHypercube { cells });
    }
    let needed = (bits / 8).max(1);
    if len < needed {
        return Err(BitPackingError::TooShort {
            needed,
            actual: len,
        });
    }
    Ok(())
}

// Whether a reduction can be opened at a point of so many coordinates, with a view of so many row variables or without one. It packs at the
// level, so the level has at most 128 coordinates.
pub fn check_opening<L: Level>(
    num_variables: usize,
    view: Option<usize>,
) -> Result<(), BitRingSwitchError>
    requires { L.Level.log ≤ 7 }
    ensures { refused ring_switch_refusal result ≡ opening L.Level.log num_variables view }
{
    if let Some(row_variables) = view {
        if row_variables > num_variables {
            return Err(BitRingSwitchError::RowVariables {
                row_variables,
                num_variables,
            });
        }
    }
    let needed = usize::from(L::log_width());
    if num_variables < needed {
        return Err(BitRingSwitchError::PointTooNarrow {
            needed,
            actual: num_variables,
        });
    }
    Ok(())
}

// Whether a packing is over the variables that the reduction runs over.
pub fn check_width(expected: usize, actual: usize) -> Result<(), BitRingSwitchError>
    ensures { refused ring_switch_refusal result ≡ width expected actual }
{
    if actual != expected {
        return Err(BitRingSwitchError::WidthMismatch { expected, actual });
    }
    Ok(())
}

// Whether a batching stage fits: it has a challenge exactly where successor tensors are sent, and a coordinate for each that one
// packed element absorbs. Two flags and no `Option`s, since only whether each is there is tested, and the fault tells the first. At most 128
// coordinates, as for an opening.
pub fn check_batching<L: Level>(
    sent: bool,
    challenged: bool,
    actual: usize,
) -> Result<(), BitRingSwitchError>
    requires { L.Level.log ≤ 7 }
    ensures { refused ring_switch_refusal result ≡ batching L.Level.log sent challenged actual }
{
    if sent != challenged {
        return Err(BitRingSwitchError::SuccessorBatching { expected: sent });
    }
    let expected = usize::from(L::log_width());
    if actual != expected {
        return Err(BitRingSwitchError::BatchWidthMismatch { expected, actual });
    }
    Ok(())
}

// Whether a successor claim can be asked for.
pub fn check_successor(view: Option<usize>) -> Result<(), BitRingSwitchError>
    ensures { refused ring_switch_refusal result ≡ successor view }
{
    view.ok_or(BitRingSwitchError::NoSuccessorView)?;
    Ok(())
}

// Whether there is a weight of this index.
pub fn check_weight(count: usize, index: usize) -> Result<(), BitRingSwitchError>
    ensures { refused ring_switch_refusal result ≡ weight count index }
{
    if index >= count {
        return Err(BitRingSwitchError::WeightIndex { count, index });
    }
    Ok(())
}

// Whether a closing point has a coordinate for each of the slot's.
// The same test as that of a packing's variables: handing the error to one function shared by both is longer than the test.
pub fn check_closing(expected: usize, actual: usize) -> Result<(), BitRingSwitchError>
    ensures { refused ring_switch_refusal result ≡ closing expected actual }
{
    if actual != expected {
        return Err(BitRingSwitchError::ClosingWidth { expected, actual });
    }
    Ok(())
}

// The test for a power of two finds exactly the powers of two.
pub fn powers_of_two_stand()
    ensures { PowersOfTwo }
{}

#[cfg(test)]
mod tests {
    use super::*;
    use doubling::bit::Bit;
    use doubling::doubling::Doubling;

    // The level of log width 3 over the bit.
    type Eight = Doubling<Doubling<Doubling<Bit>>>;

    #[test]
    fn no_bytes(rt: HostRuntime) {
        assert_eq!(rt;
            check_packing::<Eight>(0),
            Err(BitPackingError::NotAHypercube { cells: 0 })
        );
        assert_eq!(rt;
            check_packing::<Bit>(0),
            Err(BitPackingError::SubByteLevel { bits: 1 })
        );
    }

    #[test]
    fn two_coordinates(rt: HostRuntime) {
        assert_eq!(rt;
            check_opening::<Eight>(2, Some(3)),
            Err(BitRingSwitchError::RowVariables {
                row_variables: 3,
                num_variables: 2
            })
        );
        assert_eq!(rt;
            check_opening::<Eight>(2, Some(2)),
            Err(BitRingSwitchError::PointTooNarrow {
                needed: 3,
                actual: 2
            })
        );
    }
}
