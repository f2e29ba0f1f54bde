// A table of bits packed into elements in lent memory: the bytes of the table, an element's worth at a time.
// At a level of whole bytes this moves no bit: an element's coordinates are the bits of its bytes.
#![tactic(auto)]

ghost use Rattle.std.specs.Prelude.{◌≡◌, ◌+◌, ◌*◌, ◌/◌, ◌≤◌, ◌++◌, length, drop, replicate, MatchResult};
ghost use Rattle.multilinear.specs.Cells.{cell, packed};
ghost use Rattle.packing.specs.Packing.{Packed};
ghost use Rattle.refusals.specs.Refusals.{packing_refusal, refused};
ghost use Rattle.refusals.specs.Steps.{told, packing};
ghost use Rattle.level.specs.Bytes.{num_bytes};

use coordinates::num_bytes;
use level::level::Level;
use refusals::faults::BitPackingError;
use refusals::steps::check_packing;

// Some bytes, then zeroes up to sixteen.
fn padded(bytes: &[u8]) -> [u8; 16]
    requires { length bytes.now ≤ 16 }
    ensures { result ≡ bytes.now ++ drop (length bytes.now) (replicate 16 0) }
{
    let mut sixteen = [0; 16];
    sixteen[..bytes.len()].copy_from_slice(bytes);
    sixteen
}

// Packs a table into the first of the lent elements, and says into how many.
pub fn pack_elements<L: Level>(bits: &[u8], elements: &mut [L]) -> usize
    requires level { (3 ≤ L.Level.log) × (L.Level.log ≤ 7) }
    requires room { length bits.now / num_bytes L.Level.log ≤ length elements.old }
    ensures count { result ≡ length bits.now / num_bytes L.Level.log }
    ensures packed { Packed L.means bits.now result elements.old elements.new }
{
    let len = num_bytes::<L>();

    // An index into the elements, since of what is written through a zip with `iter_mut` a proof knows only the length.
    for (w, bytes) in bits.chunks_exact(len).enumerate() {
        elements[w] = L::from_bytes(padded(bytes));
    }
    bits.len() / len
}

// Packs a table, where it can be packed: the refusal is that of the first test that is not passed, and then the lent elements are
// left as they were. Bytes that are refused need no room.
pub fn pack<L: Level>(bits: &[u8], elements: &mut [L]) -> Result<usize, BitPackingError>
    requires { packing (told L.Level.log) (length bits.now) ≡ None → length bits.now / num_bytes (told L.Level.log) ≤ length elements.old }
    ensures refusal { refused packing_refusal result ≡ packing (told L.Level.log) (length bits.now) }
    ensures cases { MatchResult result
        (λ count. (count ≡ length bits.now / num_bytes (told L.Level.log)) × Packed L.means bits.now count elements.old elements.new)
        (λ _. elements.new ≡ elements.old) }
{
    check_packing::<L>(bits.len())?;
    Ok(pack_elements(bits, elements))
}
