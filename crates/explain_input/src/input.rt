ghost use Rattle.std.specs.Prelude.{◌≡◌, true, [], ◌∷◌, MatchResult};
ghost use Rattle.explain_input.specs.Inputs.{parts_of, Says, BadInput, Optional, needed, single, RefusedSayNothing, PartsDetermined};
ghost use Rattle.explain_input.specs.Keys.{lines, texts};
ghost use Rattle.explain_input.specs.Values.{Number, Letter};
ghost use Rattle.level_name.specs.Names.{letter_of};
ghost use Rattle.explain_input.specs.declared.key.Key.TheVariants.{Level, View};
ghost use Rattle.std.specs.Option.{option_map, option_to_list};

use crate::fault::InputFault;
use crate::key::Key;
use crate::lines::{Texts, first_unreadable};
use crate::number::{parse_level, parse_number};
use level_name::LevelName;
use std::alloc::Global;

// The parts of an input, as texts of it: a list of elements has single spaces between them.
#[derive(Drop)]
pub struct Input<'a> {
    pub level: LevelName,
    // The bytes of the table in hexadecimal.
    pub bits: &'a [u8],
    // The elements of the point.
    pub point: &'a [u8],
    // How many row variables the view names.
    pub view: Option<usize>,
    // The elements of the batching point.
    pub batching: Option<&'a [u8]>,
    // The challenge, an element.
    pub challenge: Option<&'a [u8]>,
    // The elements of each closing point.
    pub closings: Vec<&'a [u8]>,
}

// The text of a key that is given at most once.
fn optional_text<'a>(text: &'a [u8], key: Key) -> Result<Option<&'a [u8]>, InputFault>
    requires { single key ≡ true }
    ensures { MatchResult result (λ o. texts key (lines text.now) ≡ option_to_list (option_map (λ x. x.now) o)) (BadInput text.now) }
{
    let mut found = Texts::new(text, key);
    let first = found.next();
    match found.next() {
        Some(_) => Err(InputFault::Twice { key }),
        None => Ok(first),
    }
}

// The text of a key that is given exactly once.
fn needed_text<'a>(text: &'a [u8], key: Key) -> Result<&'a [u8], InputFault>
    requires { (single key ≡ true) × (needed key ≡ true) }
    ensures { MatchResult result (λ t. texts key (lines text.now) ≡ t.now ∷ []) (BadInput text.now) }
{
    optional_text(text, key)?.ok_or(InputFault::Missing { key })
}

// The level.
fn read_level(text: &[u8]) -> Result<LevelName, InputFault>
    ensures { MatchResult result (λ level. (texts Level (lines text.now) ≡ (letter_of level ∷ []) ∷ []) × Letter (letter_of level ∷ []) (letter_of level)) (BadInput text.now) }
{
    parse_level(needed_text(text, Key::Level)?)
}

// The row variables of the view. A match, as in `problem::reading`, where `transpose` leaves the clause open.
fn read_view(text: &[u8]) -> Result<Option<usize>, InputFault>
    ensures { MatchResult result (Optional Number (texts View (lines text.now))) (BadInput text.now) }
{
    match optional_text(text, Key::View)? {
        Some(digits) => Ok(Some(parse_number(digits).ok_or(InputFault::Number)?)),
        None => Ok(None),
    }
}

// The parts that an input gives.
pub fn read_input<'a>(heap: Global, text: &'a [u8]) -> Result<Input<'a>, InputFault>
    ensures { MatchResult result (λ i. Says text.now (parts_of i)) (BadInput text.now) }
{
    if let Some(number) = first_unreadable(text) {
        return Err(InputFault::Line { number });
    }
    let level = read_level(text)?;
    let bits = needed_text(text, Key::Bits)?;
    let point = needed_text(text, Key::Point)?;
    let view = read_view(text)?;
    let batching = optional_text(text, Key::Batching)?;
    let challenge = optional_text(text, Key::Challenge)?;
    if challenge.is_some() && batching.is_none() {
        return Err(InputFault::NoBatching);
    }
    let closings = Texts::new(text, Key::Closing).collect(heap)?;
    Ok(Input {
        level,
        bits,
        point,
        view,
        batching,
        challenge,
        closings,
    })
}

// An input that is refused, other than for want of memory, says nothing.
pub fn refusals_stand()
    ensures { RefusedSayNothing }
{}

// A text gives its parts in one way.
pub fn parts_are_determined()
    ensures { PartsDetermined }
{}

#[cfg(test)]
mod tests {
    use super::*;
    use std::test::Fail;

    #[test]
    fn any_order(rt: HostRuntime) -> Result<(), Fail> {
        let text = b"point 00 01 01 01\nview 4\n\nlevel b\nclosing 01\nbits 0001\nclosing\n";
        match read_input(rt.alloc(), text) {
            Ok(input) => {
                assert!(rt;
                    input.level == LevelName::TowerByte
                        && input.view == Some(4)
                        && input.closings.len() == 2
                );
                Ok(())
            },
            Err(_) => Err(Fail::new("the input is refused")),
        }
    }

    #[test]
    fn faults(rt: HostRuntime) {
        let heap = rt.alloc();
        assert!(rt;
            matches!(
                read_input(heap, b"level b\nbits\npoints 00\n"),
                Err(InputFault::Line { number: 3 })
            )
        );
        assert!(rt;
            matches!(
                read_input(heap, b"level b\nbits\nbits \npoint"),
                Err(InputFault::Twice { key: Key::Bits })
            )
        );
        assert!(rt;
            matches!(
                read_input(heap, b"level b\nbits"),
                Err(InputFault::Missing { key: Key::Point })
            )
        );
    }
}
