ghost use Rattle.std.specs.Prelude.{◌≡◌, IfOk, IfSome, string_bytes};
ghost use Rattle.problem.specs.Messages.{error_line};

use std::alloc::{AllocError, Global};
use std::fmt::Display;

// The reply to an input that is not read, or not at a level, by the fault's words.
pub fn error_reply<T: Display + Copy>(heap: Global, fault: T) -> Result<String, AllocError>
    ensures { IfSome (T.output fault) (λ message. IfOk result (λ s. string_bytes s ≡ error_line message)) }
{
    format!(in heap; "error: {fault}\n")
}
