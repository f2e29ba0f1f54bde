ghost use Rattle.std.specs.Prelude.{◌≡◌, ℕ, ◌+◌, ◌*◌, ◌<◌, ◌≤◌, length, Some, IfOk, string_bytes, MatchResult, slice_index};
ghost use Rattle.element_text.specs.Faults.{BadText};
ghost use Rattle.element_text.specs.Messages.{digit_message, text_message};
ghost use Rattle.element_text.specs.declared.element.TextFault.TheVariants.{Digit};
ghost use Rattle.element_text.specs.Hex.{digit_code, shown_bytes, element_text, Writes, NoDigit, Parsed, Broken, Pair, BrokenPair};

use crate::hex::{Hex, digit_value};
use level::level::Level;
use std::alloc::{AllocError, Global};
use std::error::Error;
use std::fmt;
use std::fmt::Display;

// A character of a text that is no lower-case hexadecimal digit, by its place.
#[derive(Clone, Copy, Debug, PartialEq, Eq)]
pub struct DigitFault {
    pub at: usize,
}

// Why a text does not write an element.
#[derive(Clone, Copy, Debug, PartialEq, Eq)]
pub enum TextFault {
    // The text has another length than two digits for each byte.
    Length { expected: usize, actual: usize },
    // The character at this place, the first such, is no lower-case hexadecimal digit.
    Digit { at: usize },
}

impl fmt::Display for DigitFault {
    ghost output = { λ fault. Some (digit_message fault.at) };

    fn fmt<W: fmt::Write>(&self, f: &mut fmt::Formatter<W>) -> fmt::Result {
        let at = self.at;
        write!(
            f,
            "the character at {at}, counted from 0, is no lower-case hexadecimal digit"
        )
    }
}

impl Error for DigitFault {}

impl fmt::Display for TextFault {
    ghost output = { λ fault. Some (text_message fault) };

    fn fmt<W: fmt::Write>(&self, f: &mut fmt::Formatter<W>) -> fmt::Result {
        match *self {
            TextFault::Length { expected, actual } => write!(
                f,
                "the text has {actual} characters in place of {expected}"
            ),
            TextFault::Digit { at } => DigitFault { at }.fmt(f),
        }
    }
}

impl Error for TextFault {}

impl From<DigitFault> for TextFault {
    ghost from_gives = { λ fault r. r ≡ Digit fault.at };

    fn from(fault: DigitFault) -> TextFault {
        TextFault::Digit { at: fault.at }
    }
}

// How many bytes the text of an element shows. Told for every level, where `num_bytes` of `coordinates` is for those of at most 128
// coordinates alone.
pub fn byte_count<L: Level>() -> usize
    ensures value { result ≡ shown_bytes L.Level.log }
    ensures bound { result ≤ 16 }
{
    1 << (L::log_width().clamp(3, 7) - 3)
}

// An element as its text.
#[derive(Clone, Copy)]
pub struct Shown<L>(pub L);

impl<L: Level> fmt::Display for Shown<L> {
    ghost output = { λ x. Some (element_text (L.means x.0)) };

    fn fmt<W: fmt::Write>(&self, f: &mut fmt::Formatter<W>) -> fmt::Result {
        let bytes = self.0.to_bytes();
        Hex(&bytes[..byte_count::<L>()]).fmt(f)
    }
}

// The text of an element.
pub fn element_text<L: Level>(heap: Global, x: L) -> Result<String, AllocError>
    ensures { IfOk result (λ s. string_bytes s ≡ element_text (L.means x)) }
{
    format!(in heap; "{}", Shown(x))
}

// The number that the digit at a place of a text stands for.
fn digit_at(text: &[u8], at: usize) -> Result<u8, DigitFault>
    requires { at < length text.now }
    ensures { MatchResult result (λ v. (v < 16) × (slice_index text.now at ≡ digit_code v)) (λ fault. (fault.at ≡ at) × NoDigit (slice_index text.now at)) }
{
    digit_value(text[at]).ok_or(DigitFault { at })
}

// Byte `j` of a text, or the first of its two characters that is no digit.
pub fn parse_byte(text: &[u8], j: usize) -> Result<u8, DigitFault>
    requires { 2 * j + 1 < length text.now }
    ensures { MatchResult result (Pair text.now j) (λ fault. BrokenPair text.now j fault.at) }
{
    let high = digit_at(text, 2 * j)?;
    let low = digit_at(text, 2 * j + 1)?;
    Ok(16 * high + low)
}

// The bytes that a text writes, and zeroes after them, or its first character that is no digit. Sixteen by value, as a level takes them.
// By index, since a fault of a byte is told by its place in the whole text; the count is what the level tells, of which the text has twice.
fn parse_bytes(text: &[u8], count: usize) -> Result<[u8; 16], DigitFault>
    requires { (length text.now ≡ 2 * count) × (count ≤ 16) }
    ensures { MatchResult result (Parsed count text.now) (λ fault. (fault.at < 2 * count) × Broken text.now fault.at) }
{
    let mut bytes = [0u8; 16];
    for (j, byte) in bytes[..count].iter_mut().enumerate() {
        *byte = parse_byte(text, j)?;
    }
    Ok(bytes)
}

// The element that a text of the right length writes.
pub fn parse_digits<L: Level>(text: &[u8]) -> Result<L, DigitFault>
    requires { length text.now ≡ 2 * shown_bytes L.Level.log }
    ensures { MatchResult result (λ x. Writes text.now (L.means x)) (λ fault. (fault.at < 2 * shown_bytes L.Level.log) × Broken text.now fault.at) }
{
    let bytes = parse_bytes(text, byte_count::<L>())?;
    Ok(L::from_bytes(bytes))
}

// The element that a text writes.
pub fn parse_element<L: Level>(text: &[u8]) -> Result<L, TextFault>
    ensures { MatchResult result (λ x. Writes text.now (L.means x)) (BadText (2 * shown_bytes L.Level.log) text.now) }
{
    let expected = 2 * byte_count::<L>();
    let actual = text.len();
    if actual != expected {
        return Err(TextFault::Length { expected, actual });
    }
    Ok(parse_digits(text)?)
}
