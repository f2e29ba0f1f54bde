ghost use Rattle.std.specs.Prelude.{◌≡◌, ℕ, Some, ◌+◌, ◌*◌, ◌<◌, ◌≤◌, ◌⊎◌, length, take, drop, string_bytes, MatchResult};
ghost use Rattle.element_text.specs.Hex.{Writes, shown_bytes};
ghost use Rattle.product_line.specs.declared.line.LineFault.TheVariants.{Letter, Memory};
ghost use Rattle.product_line.specs.Letters.{fault_text};
ghost use Rattle.product_line.specs.Lines.{Product, BadOperand, BadRest, shaped};

use element_text::element::{byte_count, element_text, parse_digits};
use level::level::Level;
use level_name::UnknownLetter;
use std::alloc::{AllocError, Global};
use std::error::Error;
use std::fmt;

// Why a line has no product for its answer.
#[derive(Clone, Copy, Debug, PartialEq, Eq)]
pub enum LineFault {
    // The first character names no level.
    Letter,
    // The letter is not followed by a space and this many digits, twice.
    Shape { digits: usize },
    // The character at this place, the letter being at 1, is no lower-case hexadecimal digit.
    Digit { place: usize },
    // There was no memory for the answer.
    Memory,
}

impl fmt::Display for LineFault {
    ghost output = { λ fault. Some (fault_text fault) };

    fn fmt<W: fmt::Write>(&self, f: &mut fmt::Formatter<W>) -> fmt::Result {
        match self {
            LineFault::Letter => {
                write!(
                    f,
                    "no level letter (b, w, d, q or a) at the start of the line"
                )
            }
            LineFault::Shape { digits } => write!(
                f,
                "the letter is not followed by a space and {digits} digits, twice"
            ),
            LineFault::Digit { place } => write!(
                f,
                "character {place} is no lower-case hexadecimal digit"
            ),
            LineFault::Memory => write!(f, "no memory for the answer"),
        }
    }
}

impl Error for LineFault {}

impl From<UnknownLetter> for LineFault {
    ghost from_gives = { λ e r. r ≡ Letter };

    fn from(_e: UnknownLetter) -> LineFault {
        LineFault::Letter
    }
}

impl From<AllocError> for LineFault {
    ghost from_gives = { λ e r. r ≡ Memory };

    fn from(_e: AllocError) -> LineFault {
        LineFault::Memory
    }
}

// The place in the line, the letter being at 1, of character `at` of a text that stands at `from` after the letter.
fn place(from: usize, at: usize) -> usize
    requires { from + at < 66 }
    ensures { result ≡ from + at + 2 }
{
    from + at + 2
}

// The element whose text stands at `from` in what follows the letter. The whole text and a place, since a fault is told by its place in the
// line.
fn operand<L: Level>(rest: &[u8], from: usize, digits: usize) -> Result<L, LineFault>
    requires fits { (digits ≡ 2 * shown_bytes L.Level.log) × ((from + digits ≤ length rest.now) × (length rest.now ≤ 66)) }
    requires start { (from ≡ 1) ⊎ (from ≡ digits + 2) }
    ensures { MatchResult result (λ x. Writes (take digits (drop from rest.now)) (L.means x)) (BadOperand digits rest.now) }
{
    parse_digits(&rest[from..from + digits]).map_err(|fault| LineFault::Digit {
        place: place(from, fault.at),
    })
}

// Whether what follows the letter is a space and as many digits, twice.
fn has_shape(rest: &[u8], digits: usize) -> bool
    requires { digits ≤ 32 }
    ensures { result ≡ shaped digits rest.now }
{
    rest.len() == 2 * digits + 2 && rest[0] == b' ' && rest[digits + 1] == b' '
}

// The answer to what follows the letter of a level.
pub fn product<L: Level>(heap: Global, rest: &[u8]) -> Result<String, LineFault>
    ensures { MatchResult result (λ s. Product L.Level.arithmetic rest.now (string_bytes s)) (BadRest L.Level.log rest.now) }
{
    let digits = 2 * byte_count::<L>();
    if !has_shape(rest, digits) {
        return Err(LineFault::Shape { digits });
    }
    let x: L = operand(rest, 1, digits)?;
    let y: L = operand(rest, digits + 2, digits)?;
    Ok(element_text(heap, x.mul(y))?)
}
