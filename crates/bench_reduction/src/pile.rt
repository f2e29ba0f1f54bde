ghost use Rattle.std.specs.Prelude.{◌≡◌, ◌≤◌};
ghost use Rattle.level.specs.Bytes.{from_sixteen};
ghost use Rattle.doubling.specs.Doubled.{tower};
ghost use Rattle.doubling.specs.Rings.{tower_laws};

use byte_levels::tower::Tower128 as Pile;
use level::level::Level;

// The bytes of an element of four doublings over the tower byte, in the order in which they lie in memory: an exported function takes no
// generic type.
#[derive(Clone, Copy)]
#[repr(C)]
pub struct Tower128 {
    bytes: [u8; 16],
}

// The element with these bytes. By name, as `from_bytes` and `to_bytes` of a level are, which it and `flat` hand on.
fn stacked<L: Level>(x: Tower128) -> L
    ensures { L.means result ≡ from_sixteen L.Level.log x.bytes }
{
    L::from_bytes(x.bytes)
}

// The bytes of an element.
#[tactic(auto, using(level::proofs::Words::from_shown))]
fn flat<L: Level>(x: L) -> Tower128
    requires { L.Level.log ≤ 7 }
    ensures { from_sixteen L.Level.log result.bytes ≡ L.means x }
{
    Tower128 {
        bytes: x.to_bytes(),
    }
}

impl Level for Tower128 {
    ghost log = { 7 };

    ghost means = { λ x. from_sixteen 7 x.bytes };

    ghost arithmetic = { tower 7 };

    ghost ring = { tower_laws 7 };

    fn log_width() -> u8 {
        7
    }

    fn zero() -> Self {
        flat(Pile::zero())
    }

    fn one() -> Self {
        flat(Pile::one())
    }

    fn generator() -> Self {
        flat(Pile::generator())
    }

    fn add(self, other: Self) -> Self {
        flat(stacked::<Pile>(self).add(stacked(other)))
    }

    fn mul(self, other: Self) -> Self {
        flat(stacked::<Pile>(self).mul(stacked(other)))
    }

    fn mul_generator(self) -> Self {
        flat(stacked::<Pile>(self).mul_generator())
    }

    fn equals(self, other: Self) -> bool {
        stacked::<Pile>(self).equals(stacked(other))
    }

    fn to_bytes(self) -> [u8; 16] {
        stacked::<Pile>(self).to_bytes()
    }

    fn from_bytes(bytes: [u8; 16]) -> Self {
        Tower128 { bytes }
    }
}
