ghost use Rattle.std.specs.Prelude.{◌≡◌};
ghost use Rattle.level.specs.Element.{cut};
ghost use Rattle.doubling.specs.Doubled.{tower};
ghost use Rattle.byte_levels.specs.TowerSteps.{times_x0, times_x1, times_x2, low_multiples};
ghost use Rattle.doubling.specs.Rings.{tower_laws};

use crate::bits::{equal, from_sixteen, sum, to_sixteen};
use crate::combine::combine;
use doubling::doubling::Doubling;
use level::level::Level;

// An element of three doublings over the bit, coordinate i in bit i.
#[derive(Clone, Copy, Debug, PartialEq, Eq)]
#[repr(C)]
pub struct TowerByte {
    pub value: u8,
}

// The levels of 16, 32, 64 and 128 coordinates over the tower byte.
pub type Tower16 = Doubling<TowerByte>;

pub type Tower32 = Doubling<Tower16>;

pub type Tower64 = Doubling<Tower32>;

pub type Tower128 = Doubling<Tower64>;

// x0, x1 and x2 are the generators of the first, second and third doubling: 0x02, 0x04 and 0x10.

fn times_x0(b: u8) -> u8
    ensures { result ≡ times_x0 b }
{
    ((b >> 1) & 0x55) ^ ((b << 1) & 0xaa) ^ (b & 0xaa)
}

fn times_x1(b: u8) -> u8
    ensures { result ≡ times_x1 b }
{
    ((b >> 2) & 0x33) ^ ((b << 2) & 0xcc) ^ times_x0(b & 0xcc)
}

fn times_x2(b: u8) -> u8
    ensures { result ≡ times_x2 b }
{
    (b >> 4) ^ (b << 4) ^ times_x1(b & 0xf0)
}

// The products of b by 1, x0, x1 and x0·x1, the elements of the low four bits.
fn low_multiples(b: u8) -> [u8; 4]
    ensures { result ≡ low_multiples b }
{
    let c = times_x1(b);
    [b, times_x0(b), c, times_x0(c)]
}

// a = l + x2·h for halves of four bits, so a·b = l·b + x2·(h·b).
fn product(a: u8, b: u8) -> u8
    ensures { cut 3 result ≡ (tower 3).times (cut 3 a) (cut 3 b) }
{
    let rows = low_multiples(b);
    combine(a, &rows) ^ times_x2(combine(a >> 4, &rows))
}

impl Level for TowerByte {
    ghost log = { 3 };

    ghost means = { λ x. cut 3 x.value };

    ghost arithmetic = { tower 3 };

    ghost ring = { tower_laws 3 };

    fn log_width() -> u8 {
        3
    }

    fn zero() -> Self {
        TowerByte { value: 0 }
    }

    fn one() -> Self {
        TowerByte { value: 1 }
    }

    fn generator() -> Self {
        TowerByte { value: 0x10 }
    }

    fn add(self, other: Self) -> Self {
        TowerByte {
            value: sum(self.value, other.value),
        }
    }

    fn mul(self, other: Self) -> Self {
        TowerByte {
            value: product(self.value, other.value),
        }
    }

    fn mul_generator(self) -> Self {
        TowerByte {
            value: times_x2(self.value),
        }
    }

    fn equals(self, other: Self) -> bool {
        equal(self.value, other.value)
    }

    fn to_bytes(self) -> [u8; 16] {
        to_sixteen(self.value)
    }

    fn from_bytes(bytes: [u8; 16]) -> Self {
        TowerByte {
            value: from_sixteen(bytes),
        }
    }
}
