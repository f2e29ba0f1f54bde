ghost use Rattle.std.specs.Prelude.{◌≡◌, MatchResult};
ghost use Rattle.element_lists.specs.Bytes.{BytesOf, BadBytes, RefusedWriteNoBytes, BytesDetermined};
ghost use Rattle.element_lists.specs.declared.bytes.BytesFault.TheVariants.{Memory};

use element_text::element::parse_byte;
use std::alloc::{AllocFailed, Global};

// Why a text does not write bytes.
#[derive(Clone, Copy, Debug, PartialEq, Eq)]
pub enum BytesFault {
    // The last byte has one digit alone.
    Odd,
    // The character at this place, counted from 1 and the first such, is no lower-case hexadecimal digit.
    Digit { place: usize },
    // There was no memory for the bytes.
    Memory,
}

impl<T: Drop> From<AllocFailed<T>> for BytesFault {
    ghost from_gives = { λ e r. r ≡ Memory };

    fn from(_e: AllocFailed<T>) -> BytesFault {
        BytesFault::Memory
    }
}

// The bytes that a text writes, two digits each without gaps.
pub fn parse_hex_bytes(heap: Global, text: &[u8]) -> Result<Vec<u8>, BytesFault>
    ensures { MatchResult result (λ v. BytesOf text.now v.items) (BadBytes text.now) }
{
    if text.len() % 2 != 0 {
        return Err(BytesFault::Odd);
    }
    let mut bytes = Vec::new(heap);
    // An index and no chunks, since `parse_byte` takes the whole text and tells a fault by its place there.
    for j in 0..text.len() / 2 {
        let byte = parse_byte(text, j).map_err(|fault| BytesFault::Digit {
            place: fault.at + 1,
        })?;
        bytes.push(byte)?;
    }
    Ok(bytes)
}

// A text that is refused, other than for want of memory, writes no bytes.
pub fn byte_refusals_stand()
    ensures { RefusedWriteNoBytes }
{}

// A text writes at most one list of bytes.
pub fn bytes_are_determined()
    ensures { BytesDetermined }
{}
