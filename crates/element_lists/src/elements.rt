ghost use Rattle.std.specs.Prelude.{◌≡◌, ◌+◌, ◌*◌, ◌≤◌, map, length, MatchResult};
ghost use Rattle.element_lists.specs.Elements.{ElementsOf, StandsAt, digits_of, BadElement, BadElements, RefusedWriteNoElements, ElementsDetermined};
ghost use Rattle.element_lists.specs.declared.elements.ElementsFault.TheVariants.{Memory};

use element_text::element::{byte_count, parse_digits};
use level::level::Level;
use std::alloc::{AllocFailed, Global};

// Why a text does not write a list of elements.
#[derive(Clone, Copy, Debug, PartialEq, Eq)]
pub enum ElementsFault {
    // The text is not elements of this many digits with single spaces between them.
    Shape { digits: usize },
    // The character at this place, counted from 1, is no lower-case hexadecimal digit.
    Digit { place: usize },
    // There was no memory for the elements.
    Memory,
}

impl<T: Drop> From<AllocFailed<T>> for ElementsFault {
    ghost from_gives = { λ e r. r ≡ Memory };

    fn from(_e: AllocFailed<T>) -> ElementsFault {
        ElementsFault::Memory
    }
}

// The element at place `i` of a text, where a space follows if any character does.
fn element_at<L: Level>(text: &[u8], i: usize, digits: usize) -> Result<L, ElementsFault>
    requires { (digits ≡ digits_of L.Level.log) × (i * (digits + 1) + digits ≤ length text.now) }
    ensures { MatchResult result (λ x. StandsAt text.now i digits (L.means x)) (BadElement L.Level.log text.now i) }
{
    let from = i * (digits + 1);
    let end = from + digits;
    if text.get(end).is_some_and(|c| *c != b' ') {
        return Err(ElementsFault::Shape { digits });
    }
    parse_digits(&text[from..end]).map_err(|fault| ElementsFault::Digit {
        place: from + fault.at + 1,
    })
}

// The elements that a text writes, with single spaces between them.
pub fn parse_elements<L: Level>(heap: Global, text: &[u8]) -> Result<Vec<L>, ElementsFault>
    ensures { MatchResult result (λ v. ElementsOf text.now (map L.means v.items)) (BadElements L.Level.log text.now) }
{
    let digits = 2 * byte_count::<L>();
    let mut elements = Vec::new(heap);
    if text.is_empty() {
        return Ok(elements);
    }
    if text.len() % (digits + 1) != digits {
        return Err(ElementsFault::Shape { digits });
    }
    // An index, since a fault of an element is told by its place in the whole text.
    for i in 0..text.len() / (digits + 1) + 1 {
        elements.push(element_at(text, i, digits)?)?;
    }
    Ok(elements)
}

// A text that is refused, other than for want of memory, writes no elements.
pub fn element_refusals_stand()
    ensures { RefusedWriteNoElements }
{}

// A text writes at most one list of elements.
pub fn elements_are_determined()
    ensures { ElementsDetermined }
{}
