ghost use Rattle.std.specs.Prelude.{◌≡◌, ◌<◌, MatchOption, Some};
ghost use Rattle.element_text.specs.Hex.{digit_code, hex, NoDigit};

use std::fmt;

// The number that a lower-case hexadecimal digit stands for.
pub fn digit_value(c: u8) -> Option<u8>
    ensures { MatchOption result (NoDigit c) (λ v. (v < 16) × (c ≡ digit_code v)) }
{
    // Not `to_digit`, which takes upper-case digits too.
    match c {
        b'0'..=b'9' => Some(c - b'0'),
        b'a'..=b'f' => Some(c - b'a' + 10),
        _ => None,
    }
}

// Bytes as text: two lower-case digits each, without gaps.
#[derive(Clone, Copy)]
pub struct Hex<'a>(pub &'a [u8]);

impl<'a> fmt::Display for Hex<'a> {
    ghost output = { λ x. Some (hex x.0.now) };

    fn fmt<W: fmt::Write>(&self, f: &mut fmt::Formatter<W>) -> fmt::Result {
        for &byte in self.0 {
            write!(f, "{byte:02x}")?;
        }
        Ok(())
    }
}
