ghost use Rattle.std.specs.Prelude.{◌++◌, string_bytes};
ghost use Rattle.report_lines.specs.Batched.{Batching};
ghost use Rattle.report_lines.specs.Closings.{ClosesAll, closed_text};
ghost use Rattle.report_lines.specs.Report.{Reported};

use crate::lines::line;
use crate::stop::Stop;
use element_text::element::Shown;
use level::level::Level;
use refusals::faults::BitRingSwitchError;

// Adds the line of each closing point, until one is refused; `close` answers the closing value at a point.
pub fn closing_lines<L: Level, F>(
    out: &mut String,
    closings: &[Vec<L>],
    mut close: F,
) -> Result<(), Stop>
where
    F: FnMut(&[L]) -> Result<L, BitRingSwitchError>,
    requires { F.IsAlwaysCallable close }
    ensures { (b : Batching L.Level.log) → ClosesAll L.Level b (λ a. a.0.now) F.FnMut close → Reported result (string_bytes out.new) (string_bytes out.old ++ closed_text L.Level b closings.now) }
{
    for z in closings {
        line(out, "closing", Shown(close(z.as_slice())?))?;
    }
    Ok(())
}

#[cfg(test)]
mod tests {
    use super::*;
    use doubling::bit::Bit;
    use std::test::Fail;

    #[test]
    fn lines(rt: HostRuntime) -> Result<(), Fail> {
        let heap = rt.alloc();
        let mut closings = Vec::new(heap);
        closings.push(vec![in heap; Bit::one(); 1]?)?;
        let mut out = String::new(heap);
        let lines = closing_lines(&mut out, closings.as_slice(), |_| Ok(Bit::one()));
        assert!(rt; lines.is_ok());
        assert_eq!(rt; out.as_str(), "closing 01\n");
        Ok(())
    }
}
