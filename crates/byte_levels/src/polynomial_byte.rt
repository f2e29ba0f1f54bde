ghost use Rattle.std.specs.Prelude.{◌≡◌};
ghost use Rattle.level.specs.Element.{cut};
ghost use Rattle.polynomial.specs.Polynomial.{polynomial};
ghost use Rattle.byte_levels.specs.PolynomialSteps.{xtime as by_x, multiples as multiples_of};
ghost use Rattle.polynomial.proofs.Ring.{polynomial_laws};

use crate::bits::{equal, from_sixteen, sum, to_sixteen};
use crate::combine::combine;
use level::level::Level;

// A polynomial over the bits modulo X^8 + X^4 + X^3 + X + 1, coefficient i in bit i.
#[derive(Clone, Copy, Debug, PartialEq, Eq)]
#[repr(C)]
pub struct PolynomialByte {
    pub value: u8,
}

// The product by X, as FIPS 197 names it.
fn xtime(b: u8) -> u8
    ensures { result ≡ by_x b }
{
    (b << 1) ^ ((b >> 7) * 0x1b)
}

// The products of b by 1, X, and so on up to X^7.
fn multiples(b: u8) -> [u8; 8]
    ensures { result ≡ multiples_of 8 b }
{
    let mut products = [0; 8];
    let mut next = b;
    for product in &mut products {
        *product = next;
        next = xtime(next);
    }
    products
}

// a·b is the sum of X^i·b over the set bits i of a.
fn product(a: u8, b: u8) -> u8
    ensures { cut 3 result ≡ polynomial.times (cut 3 a) (cut 3 b) }
{
    combine(a, &multiples(b))
}

impl Level for PolynomialByte {
    ghost log = { 3 };

    ghost means = { λ x. cut 3 x.value };

    ghost arithmetic = { polynomial };

    ghost ring = { polynomial_laws };

    fn log_width() -> u8 {
        3
    }

    fn zero() -> Self {
        PolynomialByte { value: 0 }
    }

    fn one() -> Self {
        PolynomialByte { value: 1 }
    }

    fn generator() -> Self {
        PolynomialByte { value: 0x01 }
    }

    fn add(self, other: Self) -> Self {
        PolynomialByte {
            value: sum(self.value, other.value),
        }
    }

    fn mul(self, other: Self) -> Self {
        PolynomialByte {
            value: product(self.value, other.value),
        }
    }

    fn mul_generator(self) -> Self {
        self
    }

    fn equals(self, other: Self) -> bool {
        equal(self.value, other.value)
    }

    fn to_bytes(self) -> [u8; 16] {
        to_sixteen(self.value)
    }

    fn from_bytes(bytes: [u8; 16]) -> Self {
        PolynomialByte {
            value: from_sixteen(bytes),
        }
    }
}
