ghost use Rattle.std.specs.Prelude.{IfOk, string_bytes};
ghost use Rattle.explain_input.specs.Inputs.{parts_of};
ghost use Rattle.report_lines.specs.Replies.{ReplyAt, ReplyTo, Reply, OnlyTheReport, NoneTellsOfMemory};

use crate::reporter::Reporter;
use byte_levels::polynomial_byte::PolynomialByte;
use byte_levels::tower::{Tower16, Tower32, Tower64, TowerByte};
use explain_input::fault::InputFault;
use explain_input::input::{Input, read_input};
use level::level::Level;
use level_name::LevelName;
use problem::errors::error_reply;
use problem::reading::read_problem;
use std::alloc::{AllocError, Global};

// The reply to an input at a level.
fn reply_at<R: Reporter, L: Level>(heap: Global, input: &Input) -> Result<String, AllocError>
    ensures { IfOk result (λ s. ReplyAt L.arithmetic (parts_of input.now) (string_bytes s)) }
{
    match read_problem::<L>(heap, input) {
        Ok(problem) => R::report(heap, &problem),
        Err(problem_fault) if problem_fault.wants_memory() => Err(AllocError),
        Err(problem_fault) => error_reply(heap, problem_fault),
    }
}

// The reply to an input at the level that it names.
fn reply_to<R: Reporter>(heap: Global, input: &Input) -> Result<String, AllocError>
    ensures { IfOk result (λ s. ReplyTo (parts_of input.now) (string_bytes s)) }
{
    // A match of its own, like that of `product_line`: a trait for both, with an impl for each, is longer than the five lines.
    match input.level {
        LevelName::TowerByte => reply_at::<R, TowerByte>(heap, input),
        LevelName::Tower16 => reply_at::<R, Tower16>(heap, input),
        LevelName::Tower32 => reply_at::<R, Tower32>(heap, input),
        LevelName::Tower64 => reply_at::<R, Tower64>(heap, input),
        LevelName::PolynomialByte => reply_at::<R, PolynomialByte>(heap, input),
    }
}

// The reply to an input: its report, or one line that begins `error: ` and says what is wrong with it. A want of memory is an error of the
// call, and no reply.
pub fn reply<R: Reporter>(heap: Global, text: &[u8]) -> Result<String, AllocError>
    ensures { IfOk result (λ s. Reply text.now (string_bytes s)) }
{
    match read_input(heap, text) {
        Ok(input) => reply_to::<R>(heap, &input),
        Err(InputFault::Memory) => Err(AllocError),
        Err(input_fault) => error_reply(heap, input_fault),
    }
}

// A text that asks for something has its report for its only reply.
pub fn only_the_report()
    ensures { OnlyTheReport }
{}

// No reply is a line that tells of a want of memory.
pub fn none_tells_of_memory()
    ensures { NoneTellsOfMemory }
{}
