ghost use Rattle.std.specs.Prelude.{◌≡◌, length, IfOk};
ghost use Rattle.refusals.specs.Refusals.{packing_refusal, refused};
ghost use Rattle.refusals.specs.Steps.{told, packing};
ghost use Rattle.report_lines.specs.Packing.{Packs};

use element_text::element::byte_count;
use level::level::Level;
use refusals::faults::BitPackingError;
use refusals::steps::check_packing;

// The log of how many packed elements the bytes hold.
pub fn packed_variables<L: Level>(bits: &[u8]) -> Result<usize, BitPackingError>
    ensures refusal { refused packing_refusal result ≡ packing (told L.Level.log) (length bits.now) }
    ensures packs { IfOk result (Packs L.Level.log (length bits.now)) }
{
    check_packing::<L>(bits.len())?;
    let elements = bits.len() / byte_count::<L>();
    Ok(elements.ilog2() as usize)
}
