ghost use Rattle.std.specs.Prelude.{◌≡◌, ◌≤◌, true, Some, [], ◌∷◌, map, length, MatchResult};
ghost use Rattle.element_lists.specs.Bytes.{BytesOf};
ghost use Rattle.element_lists.specs.Elements.{ElementsOf};
ghost use Rattle.explain_input.specs.Inputs.{parts_of};
ghost use Rattle.explain_input.specs.declared.key.Key.TheVariants as named;
ghost use Rattle.problem.specs.Reading.{most_bytes, OptionalPoint, OptionalElement, EachPoint, unbatched, of_elements, wants_memory, Asks, BadText, BadAmong, BadOptional, BadProblem, RefusedAskNothing, TaskDetermined};
ghost use Rattle.problem.specs.Task.{task_of};
ghost use Rattle.problem.specs.declared.reading.ProblemFault.TheVariants.{Bits, Memory};
ghost use Rattle.problem.specs.Messages.{problem_message};
ghost use Rattle.std.specs.Option.{option_map};

use crate::problem::Problem;
use element_lists::bytes::{BytesFault, parse_hex_bytes};
use element_lists::called::Called;
use element_lists::elements::{ElementsFault, parse_elements};
use element_text::element::byte_count;
use explain_input::input::Input;
use explain_input::key::Key;
use level::level::Level;
use std::alloc::{AllocFailed, Global};
use std::error::Error;
use std::fmt;

// Why an input is not read at a level.
#[derive(Clone, Copy, Debug, PartialEq, Eq)]
pub enum ProblemFault {
    // There are closing points, but no batching point.
    NoBatching,
    // The text of `bits` does not write bytes.
    Bits { fault: BytesFault },
    // The bytes are more than 2^20 packed elements.
    TooLarge,
    // A text of this key does not write elements.
    Elements { key: Key, fault: ElementsFault },
    // The text of `challenge` does not write one element alone.
    Challenge,
    // There was no memory for the closing points.
    Memory,
}

impl ProblemFault {
    // Whether there was no memory to read the input, so that the fault says nothing of it.
    pub fn wants_memory(self) -> bool
        ensures { result ≡ wants_memory self }
    {
        matches!(
            self,
            ProblemFault::Memory
                | ProblemFault::Bits {
                    fault: BytesFault::Memory
                }
                | ProblemFault::Elements {
                    fault: ElementsFault::Memory,
                    ..
                }
        )
    }
}

impl fmt::Display for ProblemFault {
    ghost output = { λ fault. Some (problem_message fault) };

    fn fmt<W: fmt::Write>(&self, f: &mut fmt::Formatter<W>) -> fmt::Result {
        match *self {
            ProblemFault::NoBatching => write!(f, "closing without batching"),
            ProblemFault::Bits { fault } => Called {
                word: "bits",
                fault,
            }
            .fmt(f),
            ProblemFault::TooLarge => write!(f, "bits are more than 2^20 packed elements"),
            ProblemFault::Elements { key, fault } => {
                let word = key.word();
                Called { word, fault }.fmt(f)
            }
            ProblemFault::Challenge => write!(f, "challenge is not one element"),
            ProblemFault::Memory => write!(f, "no memory for the closing points"),
        }
    }
}

impl Error for ProblemFault {}

impl From<BytesFault> for ProblemFault {
    ghost from_gives = { λ fault r. r ≡ Bits fault };

    fn from(fault: BytesFault) -> ProblemFault {
        ProblemFault::Bits { fault }
    }
}

impl<T: Drop> From<AllocFailed<T>> for ProblemFault {
    ghost from_gives = { λ e r. r ≡ Memory };

    fn from(_e: AllocFailed<T>) -> ProblemFault {
        ProblemFault::Memory
    }
}

// The bytes of the table.
fn read_bits<L: Level>(heap: Global, text: &[u8]) -> Result<Vec<u8>, ProblemFault>
    ensures { MatchResult result (λ v. BytesOf text.now v.items × (length v.items ≤ most_bytes L.Level.log)) (BadText L.Level.log named.Bits text.now) }
{
    let bits = parse_hex_bytes(heap, text)?;
    if bits.len() > (1 << 20) * byte_count::<L>() {
        return Err(ProblemFault::TooLarge);
    }
    Ok(bits)
}

// The elements that a text of a key writes.
fn read_elements<L: Level>(heap: Global, key: Key, text: &[u8]) -> Result<Vec<L>, ProblemFault>
    requires { of_elements key ≡ true }
    ensures { MatchResult result (λ v. ElementsOf text.now (map L.means v.items)) (BadText L.Level.log key text.now) }
{
    parse_elements(heap, text).map_err(|fault| ProblemFault::Elements { key, fault })
}

// The batching point, where there is one. A match, here and for the challenge: with `map(..).transpose()` the answer of the call on the text
// is known at `Some` alone, and `returns` stays open.
fn read_batching<L: Level>(
    heap: Global,
    text: Option<&[u8]>,
) -> Result<Option<Vec<L>>, ProblemFault>
    ensures { let given = option_map (λ x. x.now) text.entry in MatchResult result (λ o. OptionalPoint given (option_map (λ v. map L.means v.items) o)) (BadOptional L.Level.log named.Batching given) }
{
    match text {
        Some(text) => Ok(Some(read_elements(heap, Key::Batching, text)?)),
        None => Ok(None),
    }
}

// The only element that a text writes.
fn read_element<L: Level>(heap: Global, text: &[u8]) -> Result<L, ProblemFault>
    ensures { MatchResult result (λ x. ElementsOf text.now (L.means x ∷ [])) (BadText L.Level.log named.Challenge text.now) }
{
    let elements = read_elements(heap, Key::Challenge, text)?;
    match elements.as_slice() {
        [x] => Ok(*x),
        _ => Err(ProblemFault::Challenge),
    }
}

// The challenge, where there is one.
fn read_challenge<L: Level>(heap: Global, text: Option<&[u8]>) -> Result<Option<L>, ProblemFault>
    ensures { let given = option_map (λ x. x.now) text.entry in MatchResult result (λ o. OptionalElement given (option_map L.means o)) (BadOptional L.Level.log named.Challenge given) }
{
    match text {
        Some(text) => Ok(Some(read_element(heap, text)?)),
        None => Ok(None),
    }
}

// The closing points, in their order.
fn read_closings<L: Level>(heap: Global, texts: &[&[u8]]) -> Result<Vec<Vec<L>>, ProblemFault>
    ensures { MatchResult result (λ vs. EachPoint (map (λ x. x.now) texts.now) (map (λ v. map L.means v.items) vs.items)) (BadAmong L.Level.log named.Closing (map (λ x. x.now) texts.now)) }
{
    let mut closings = Vec::new(heap);
    for text in texts {
        closings.push(read_elements(heap, Key::Closing, *text)?)?;
    }
    Ok(closings)
}

// Whether there are closing points, but no batching point.
fn closes_unbatched(input: &Input) -> bool
    ensures { result ≡ unbatched (parts_of input.now) }
{
    input.batching.is_none() && !input.closings.is_empty()
}

// The problem that an input poses at a level.
pub fn read_problem<L: Level>(heap: Global, input: &Input) -> Result<Problem<L>, ProblemFault>
    ensures { MatchResult result (λ p. Asks (parts_of input.now) (task_of L.means p)) (BadProblem L.Level.log (parts_of input.now)) }
{
    if closes_unbatched(input) {
        return Err(ProblemFault::NoBatching);
    }
    let bits = read_bits::<L>(heap, input.bits)?;
    let point = read_elements(heap, Key::Point, input.point)?;
    let batching = read_batching(heap, input.batching)?;
    let challenge = read_challenge(heap, input.challenge)?;
    let closings = read_closings(heap, input.closings.as_slice())?;
    Ok(Problem {
        bits,
        point,
        view: input.view,
        batching,
        challenge,
        closings,
    })
}

// An input that is refused, other than for want of memory, asks for nothing.
pub fn refusals_stand()
    ensures { RefusedAskNothing }
{}

// An input asks for one thing at most.
pub fn task_is_determined()
    ensures { TaskDetermined }
{}
