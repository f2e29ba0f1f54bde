// The tower byte is three doublings over the bit: the same coordinates, product and generator, by way of the doublings themselves.
#![tactic(auto)]

ghost use Rattle.std.specs.Prelude.{◌≡◌};
ghost use Rattle.level.specs.Bytes.{sixteen, from_sixteen};
ghost use Rattle.level.specs.Element.{cut};
ghost use Rattle.doubling.specs.Doubled.{tower};

use byte_levels::tower::TowerByte;
use doubling::bit::Bit;
use doubling::doubling::Doubling;
use level::level::Level;

type ThreeDoublings = Doubling<Doubling<Doubling<Bit>>>;

// The element of another level with the same coordinates, as far as both have them and below 128.
pub fn carried<L: Level, M: Level>(x: L) -> M
    ensures { M.Level.means result ≡ from_sixteen M.Level.log (sixteen (L.Level.means x)) }
{
    M::from_bytes(x.to_bytes())
}

// The product of two tower bytes, taken at three doublings over the bit.
pub fn product_by_doublings(a: TowerByte, b: TowerByte) -> TowerByte
    ensures { cut 3 result.value ≡ (tower 3).times (cut 3 a.value) (cut 3 b.value) }
{
    let x = carried::<TowerByte, ThreeDoublings>(a);
    let y = carried::<TowerByte, ThreeDoublings>(b);
    carried::<ThreeDoublings, TowerByte>(x.mul(y))
}

// The generator of three doublings over the bit.
pub fn generator_by_doublings() -> TowerByte
    ensures { cut 3 result.value ≡ (tower 3).root }
{
    carried::<ThreeDoublings, TowerByte>(ThreeDoublings::generator())
}
