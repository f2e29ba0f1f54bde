ghost use Rattle.byte_levels.specs.Bytes.{TowerByte, PolynomialByte};

// Theorems on the arithmetic of the two bytes, each the contract of a function.

// What is written on bits for the tower byte is the arithmetic of three doublings over the bit.
pub fn tower_stands()
    ensures { TowerByte }
{}

// The product by X written on bits is that of polynomials.
pub fn polynomial_stands()
    ensures { PolynomialByte }
{}
