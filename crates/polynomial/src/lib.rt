// The arithmetic of bytes as polynomials over the bits modulo X^8 + X^4 + X^3 + X + 1, defined in `specs/` from FIPS 197.
// The contract below is the theorem that the reduction there is the remainder; `proofs/` shows the laws of a level.
#![tactic(auto)]

ghost use Rattle.polynomial.specs.Division.{Remainder};

// Reduction is the remainder of a division by the modulus.
pub fn remainder_stands()
    ensures { Remainder }
{}
