// A level: a kind of element with 2^k coordinates, each 0 or 1, that can be added and multiplied.
// The trait `Level` states what every level does and the laws that it shows; `specs/` says what its words mean.
#![tactic(auto)]

ghost use Rattle.level.specs.Bytes.{BytesAreCoordinates};

pub mod level;

// The sixteen bytes of an element, and an element from sixteen bytes, bit by bit.
pub fn bytes_stand()
    ensures { BytesAreCoordinates }
{}
