ghost use Rattle.std.specs.Prelude.{◌≡◌, ◌++◌, length, string_bytes, OnOk, IfSome};
ghost use Rattle.element_text.specs.Hex.{element_text};
ghost use Rattle.multilinear.specs.Lent.{lent};
ghost use Rattle.report_lines.specs.Lines.{line, optional_text};
ghost use Rattle.report_lines.specs.Report.{lines_below};
ghost use Rattle.std.specs.Option.{option_map};

use element_text::element::Shown;
use level::level::Level;
use std::alloc::AllocError;
use std::fmt::{Display, Write};

// Adds the line of a word and a value.
pub fn line<T: Display + Copy>(out: &mut String, word: &str, value: T) -> Result<(), AllocError>
    ensures { IfSome (T.output value) (λ text. OnOk result (string_bytes out.new ≡ string_bytes out.old ++ line word.now text)) }
{
    writeln!(out, "{word} {value}")
}

// Adds the line of a word and an element, or `none`.
pub fn optional_line<L: Level>(out: &mut String, word: &str, x: Option<L>) -> Result<(), AllocError>
    ensures { OnOk result (string_bytes out.new ≡ string_bytes out.old ++ line word.now (optional_text (option_map L.means x))) }
{
    match x {
        Some(x) => line(out, word, Shown(x)),
        None => line(out, word, "none"),
    }
}

// Adds the line of a word for each element of a slice.
pub fn element_lines<L: Level>(
    out: &mut String,
    word: &str,
    elements: &[L],
) -> Result<(), AllocError>
    ensures { OnOk result (string_bytes out.new ≡ string_bytes out.old ++ lines_below (length elements.now) (λ i. line word.now (element_text (lent L.means elements.now i)))) }
{
    for x in elements {
        line(out, word, Shown(*x))?;
    }
    Ok(())
}

#[cfg(test)]
mod tests {
    use super::*;
    use doubling::bit::Bit;
    use std::test::Fail;

    #[test]
    fn lines(rt: HostRuntime) -> Result<(), Fail> {
        let mut out = String::new(rt.alloc());
        line(&mut out, "prefix", 12u8)?;
        line(&mut out, "incoming", Shown(Bit::one()))?;
        optional_line(&mut out, "successor", None::<Bit>)?;
        element_lines(&mut out, "packed", &[Bit::zero(), Bit::one()])?;
        assert_eq!(rt;
            out.as_str(),
            "prefix 12\nincoming 01\nsuccessor none\npacked 00\npacked 01\n"
        );
        Ok(())
    }
}
