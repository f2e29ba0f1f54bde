ghost use Rattle.std.specs.Prelude.{◌≡◌, cond, ◌%◌, T};
ghost use Rattle.std.specs.Int.Bits.{bit_and, bit_xor};
ghost use Rattle.doubling.specs.Doubled.{bit, bit_of};
ghost use Rattle.doubling.specs.Rings.{bit_laws};

use level::level::Level;

// The level of log width 0: one coordinate.
#[derive(Clone, Copy, Debug, PartialEq, Eq)]
pub struct Bit {
    pub set: bool,
}

impl Level for Bit {
    ghost log = { 0 };

    ghost means = { λ x. bit_of x.set };

    ghost arithmetic = { bit };

    ghost ring = { bit_laws };

    fn log_width() -> u8 {
        0
    }

    fn zero() -> Self {
        Bit { set: false }
    }

    fn one() -> Self {
        Bit { set: true }
    }

    fn generator() -> Self {
        Bit::one()
    }

    fn add(self, other: Self) -> Self {
        Bit {
            set: exclusive_or(self.set, other.set),
        }
    }

    fn mul(self, other: Self) -> Self {
        Bit {
            set: both(self.set, other.set),
        }
    }

    fn equals(self, other: Self) -> bool {
        same(self.set, other.set)
    }

    fn to_bytes(self) -> [u8; 16] {
        u128::from(self.set).to_le_bytes()
    }

    fn from_bytes(bytes: [u8; 16]) -> Self {
        Bit {
            set: is_odd(bytes[0]),
        }
    }
}

fn exclusive_or(a: bool, b: bool) -> bool
    ensures { cond result 1 0 ≡ bit_xor (cond a 1 0) (cond b 1 0) }
{
    a ^ b
}

fn both(a: bool, b: bool) -> bool
    ensures { cond result 1 0 ≡ bit_and (cond a 1 0) (cond b 1 0) }
{
    a & b
}

fn same(a: bool, b: bool) -> bool
    ensures agree { T result → a ≡ b }
    ensures found { a ≡ b → T result }
{
    a == b
}

fn is_odd(byte: u8) -> bool
    ensures { cond result 1 0 ≡ byte % 2 }
{
    byte % 2 == 1
}
