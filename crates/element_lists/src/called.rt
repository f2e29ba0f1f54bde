ghost use Rattle.std.specs.Prelude.{Some};
ghost use Rattle.element_lists.specs.Messages.{digit_message, elements_message, bytes_message};

use crate::bytes::BytesFault;
use crate::elements::ElementsFault;
use std::fmt;

// A fault of a text that is called by a word. `BytesFault` and `ElementsFault` are printed only so, since the words for them name the text.
#[derive(Clone, Copy, Debug, PartialEq, Eq, Drop)]
pub struct Called<'a, F> {
    pub word: &'a str,
    pub fault: F,
}

// The place of a character that is no digit.
#[derive(Clone, Copy)]
struct NoDigit(usize);

impl<'a> fmt::Display for Called<'a, NoDigit> {
    ghost output = { λ c. Some (digit_message c.word.now c.fault.0) };

    fn fmt<W: fmt::Write>(&self, f: &mut fmt::Formatter<W>) -> fmt::Result {
        let word = self.word;
        let place = self.fault.0;
        write!(
            f,
            "character {place} of {word} is no lower-case hexadecimal digit"
        )
    }
}

impl<'a> fmt::Display for Called<'a, ElementsFault> {
    ghost output = { λ c. Some (elements_message c.word.now c.fault) };

    fn fmt<W: fmt::Write>(&self, f: &mut fmt::Formatter<W>) -> fmt::Result {
        let word = self.word;
        match self.fault {
            ElementsFault::Shape { digits } => write!(
                f,
                "{word} is not elements of {digits} digits with single spaces between them"
            ),
            ElementsFault::Digit { place } => Called {
                word,
                fault: NoDigit(place),
            }
            .fmt(f),
            ElementsFault::Memory => write!(f, "no memory for the elements of {word}"),
        }
    }
}

impl<'a> fmt::Display for Called<'a, BytesFault> {
    ghost output = { λ c. Some (bytes_message c.word.now c.fault) };

    fn fmt<W: fmt::Write>(&self, f: &mut fmt::Formatter<W>) -> fmt::Result {
        let word = self.word;
        match self.fault {
            BytesFault::Odd => write!(f, "the last byte of {word} has one digit alone"),
            BytesFault::Digit { place } => Called {
                word,
                fault: NoDigit(place),
            }
            .fmt(f),
            BytesFault::Memory => write!(f, "no memory for the bytes of {word}"),
        }
    }
}
