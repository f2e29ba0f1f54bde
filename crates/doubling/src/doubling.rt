ghost use Rattle.std.specs.Prelude.{◌≡◌, suc, ◌*◌, ◌/◌, ◌%◌, ◌^◌, ◌<◌, T};
ghost use Rattle.std.specs.Int.Bits.{bit_or};
ghost use Rattle.level.specs.Element.{plus, zeros};
ghost use Rattle.doubling.specs.Doubled.{join, doubled, high_by_sums};
ghost use Rattle.doubling.specs.Rings.{doubled_laws};

use level::level::Level;

// An element of the doubling of a level: its coordinates are those of `low`, followed by those of `high`.
#[derive(Clone, Copy, Debug)]
pub struct Doubling<L> {
    pub low: L,
    pub high: L,
}

impl<L> Doubling<L> {
    pub fn new(low: L, high: L) -> Self
        ensures low { result.low ≡ low }
        ensures high { result.high ≡ high }
    {
        Doubling { low, high }
    }
}

impl<L: Level> Level for Doubling<L> {
    ghost log = { suc L.Level.log };

    ghost means = { λ x. join (L.Level.means x.low) (L.Level.means x.high) };

    ghost arithmetic = { doubled L.Level.arithmetic };

    ghost ring = { doubled_laws L.Level.ring };

    fn log_width() -> u8 {
        (L::log_width() + 1).min(8)
    }

    fn zero() -> Self {
        Doubling::new(L::zero(), L::zero())
    }

    fn one() -> Self {
        Doubling::new(L::one(), L::zero())
    }

    fn generator() -> Self {
        Doubling::new(L::zero(), L::one())
    }

    fn add(self, other: Self) -> Self {
        sum_halves(self, other)
    }

    fn mul(self, other: Self) -> Self {
        product_halves(self, other)
    }

    fn mul_generator(self) -> Self {
        generator_product_halves(self)
    }

    fn equals(self, other: Self) -> bool {
        same_halves(self, other)
    }

    fn to_bytes(self) -> [u8; 16] {
        let low = self.low.to_bytes();
        let k = L::log_width();
        if k >= 7 {
            return low;
        }
        let high = u128::from_le_bytes(self.high.to_bytes());
        joined(u128::from_le_bytes(low), high, coordinates(k)).to_le_bytes()
    }

    fn from_bytes(bytes: [u8; 16]) -> Self {
        let bits = u128::from_le_bytes(bytes);
        let low = L::from_bytes(bytes);
        let k = L::log_width();
        if k >= 7 {
            return Doubling {
                low,
                high: L::zero(),
            };
        }
        let above = upper(bits, coordinates(k));
        Doubling {
            low,
            high: L::from_bytes(above.to_le_bytes()),
        }
    }
}

// What each operation comes to by halves, in the arithmetic of the level below.

fn sum_halves<L: Level>(x: Doubling<L>, y: Doubling<L>) -> Doubling<L>
    ensures low { L.means result.low ≡ plus (L.means x.low) (L.means y.low) }
    ensures high { L.means result.high ≡ plus (L.means x.high) (L.means y.high) }
{
    Doubling::new(x.low.add(y.low), x.high.add(y.high))
}

// The product by three products of the level below.
fn product_halves<L: Level>(x: Doubling<L>, y: Doubling<L>) -> Doubling<L>
    ensures low { L.means result.low ≡ plus (L.arithmetic.times (L.means x.low) (L.means y.low)) (L.arithmetic.times (L.means x.high) (L.means y.high)) }
    ensures high { L.means result.high ≡ high_by_sums L.arithmetic (L.means x.low) (L.means x.high) (L.means y.low) (L.means y.high) }
{
    let ac = x.low.mul(y.low);
    let be = x.high.mul(y.high);
    let sums = x.low.add(x.high).mul(y.low.add(y.high));
    Doubling::new(ac.add(be), sums.add(ac).add(be).add(be.mul_generator()))
}

// (0, 1)·(a, b) = (b, a + g·b)
fn generator_product_halves<L: Level>(x: Doubling<L>) -> Doubling<L>
    ensures low { L.means result.low ≡ L.means x.high }
    ensures high { L.means result.high ≡ plus (L.means x.low) (L.arithmetic.times L.arithmetic.root (L.means x.high)) }
{
    Doubling::new(x.high, x.low.add(x.high.mul_generator()))
}

fn same_halves<L: Level>(x: Doubling<L>, y: Doubling<L>) -> bool
    ensures low { T result → L.means x.low ≡ L.means y.low }
    ensures high { T result → L.means x.high ≡ L.means y.high }
    ensures found { L.means x.low ≡ L.means y.low → L.means x.high ≡ L.means y.high → T result }
{
    x.low.equals(y.low) && x.high.equals(y.high)
}

// 2^k. That of the crate `coordinates` is in a crate that stands on more than levels.
fn coordinates(k: u8) -> u32
    requires { k < 7 }
    ensures { result ≡ 2 ^ k }
{
    1u32 << k
}

// The bits of `low`, and those of `high` from place `width` on.
fn joined(low: u128, high: u128, width: u32) -> u128
    requires { width < 128 }
    ensures { result ≡ bit_or low (high * 2 ^ width % 2 ^ 128) }
{
    low | (high << width)
}

// The bits from place `width` on.
fn upper(bits: u128, width: u32) -> u128
    requires { width < 128 }
    ensures { result ≡ bits / 2 ^ width }
{
    bits >> width
}
