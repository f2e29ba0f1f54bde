ghost use Rattle.std.specs.Prelude.{◌≡◌, ◌++◌, IfOk, string_bytes, codes, MatchResult};
ghost use Rattle.product_line.specs.Letters.{Answer, BadLine, Reply, OnlyAnAnswer, NoneTellsOfMemory, fault_text, Stripped};

use crate::line::{LineFault, product};
use byte_levels::polynomial_byte::PolynomialByte;
use byte_levels::tower::{Tower16, Tower32, Tower64, TowerByte};
use level_name::LevelName;
use std::alloc::{AllocError, Global};

// The text of the product that a line asks for.
pub fn product_line(heap: Global, line: &[u8]) -> Result<String, LineFault>
    ensures { MatchResult result (λ s. Answer line.now (string_bytes s)) (BadLine line.now) }
{
    let [letter, rest @ ..] = line else {
        return Err(LineFault::Letter);
    };
    // A match of its own, like that of `replies`: one function for both would need a trait with a generic method, a ghost member for what it
    // answers at a level, and an impl for each, which is longer than the five lines.
    match LevelName::try_from(char::from(*letter))? {
        LevelName::TowerByte => product::<TowerByte>(heap, rest),
        LevelName::Tower16 => product::<Tower16>(heap, rest),
        LevelName::Tower32 => product::<Tower32>(heap, rest),
        LevelName::Tower64 => product::<Tower64>(heap, rest),
        LevelName::PolynomialByte => product::<PolynomialByte>(heap, rest),
    }
}

// The words for a refusal. The line of `problem::errors` ends in a newline: one function for both would be told whether to write it.
pub fn fault_text(heap: Global, fault: LineFault) -> Result<String, AllocError>
    ensures { IfOk result (λ s. string_bytes s ≡ codes "error: " ++ fault_text fault) }
{
    format!(in heap; "error: {fault}")
}

// The reply to a line: the text of the product, or `error: ` and what is wrong with the line. A want of memory is an error of the call, and
// no reply.
pub fn reply(heap: Global, line: &[u8]) -> Result<String, AllocError>
    ensures { IfOk result (λ s. Reply line.now (string_bytes s)) }
{
    match product_line(heap, line) {
        Ok(answer) => Ok(answer),
        Err(LineFault::Memory) => Err(AllocError),
        Err(fault) => fault_text(heap, fault),
    }
}

// A line that has an answer has no reply but an answer.
pub fn only_an_answer()
    ensures { OnlyAnAnswer }
{}

// No reply tells of a want of memory.
pub fn none_tells_of_memory()
    ensures { NoneTellsOfMemory }
{}

// A line without the newline that ended it.
pub fn without_newline(line: &[u8]) -> &[u8]
    ensures { Stripped line.now result.now }
{
    line.strip_suffix(b"\n").unwrap_or(line)
}
