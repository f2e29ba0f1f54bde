ghost use Rattle.std.specs.Prelude.{◌≡◌, ℕ, List, IfOk, string_bytes};
ghost use Rattle.report_lines.specs.Report.{Reported};

use crate::lines::line;
use crate::stop::Stop;
use std::alloc::AllocError;

// The whole text of a report of which lines are written, until a step was refused: its line ends the text.
pub fn finish(mut out: String, lines: Result<(), Stop>) -> Result<String, AllocError>
    ensures { IfOk result (λ s. (text : List ℕ) → Reported lines (string_bytes out) text → string_bytes s ≡ text) }
{
    match lines {
        Ok(()) => Ok(out),
        Err(Stop::Refused(refusal)) => {
            line(&mut out, "refused", refusal.number())?;
            Ok(out)
        }
        Err(Stop::Memory) => Err(AllocError),
    }
}
