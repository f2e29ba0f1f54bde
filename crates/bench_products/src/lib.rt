// Loops of products for the benchmark, one for each level that it measures, exported for a driver in Rust.
#![tactic(auto)]

ghost use Rattle.std.specs.Prelude.{◌≡◌, ◌≤◌};
ghost use Rattle.doubling.specs.Doubled.{tower};
ghost use Rattle.polynomial.specs.Polynomial.{polynomial};
ghost use Rattle.bench_products.specs.Chain.{chained, low_chained};

use byte_levels::polynomial_byte::PolynomialByte;
use byte_levels::tower::{Tower16, Tower32, Tower64, Tower128, TowerByte};
use level::level::Level;

// The product of `x` and `y`, times `y` again until it is there `n` times.
pub fn chain<L: Level>(x: L, y: L, n: u64) -> L
    ensures { L.means result ≡ chained L.arithmetic n (L.means x) (L.means y) }
{
    let mut product = x;
    for _ in 0..n {
        product = product.mul(y);
    }
    product
}

// The coordinates below 64 of a chain whose elements have the coordinates below 64 that are given.
fn chain_low<L: Level>(x: u64, y: u64, n: u64) -> u64
    requires { L.Level.log ≤ 7 }
    ensures { result ≡ low_chained L.arithmetic n x y }
{
    let start = L::from_bytes(u128::from(x).to_le_bytes());
    let factor = L::from_bytes(u128::from(y).to_le_bytes());
    let bytes = chain(start, factor, n).to_bytes();
    (u128::from_le_bytes(bytes) & 0xffff_ffff_ffff_ffff) as u64
}

// One export for each level, since C has no type parameters.

#[unsafe(no_mangle)]
pub extern "C" fn chain_tower_byte(x: u64, y: u64, n: u64) -> u64
    ensures { result ≡ low_chained (tower 3) n x y }
{
    chain_low::<TowerByte>(x, y, n)
}

#[unsafe(no_mangle)]
pub extern "C" fn chain_polynomial_byte(x: u64, y: u64, n: u64) -> u64
    ensures { result ≡ low_chained polynomial n x y }
{
    chain_low::<PolynomialByte>(x, y, n)
}

#[unsafe(no_mangle)]
pub extern "C" fn chain_tower_16(x: u64, y: u64, n: u64) -> u64
    ensures { result ≡ low_chained (tower 4) n x y }
{
    chain_low::<Tower16>(x, y, n)
}

#[unsafe(no_mangle)]
pub extern "C" fn chain_tower_32(x: u64, y: u64, n: u64) -> u64
    ensures { result ≡ low_chained (tower 5) n x y }
{
    chain_low::<Tower32>(x, y, n)
}

#[unsafe(no_mangle)]
pub extern "C" fn chain_tower_64(x: u64, y: u64, n: u64) -> u64
    ensures { result ≡ low_chained (tower 6) n x y }
{
    chain_low::<Tower64>(x, y, n)
}

#[unsafe(no_mangle)]
pub extern "C" fn chain_tower_128(x: u64, y: u64, n: u64) -> u64
    ensures { result ≡ low_chained (tower 7) n x y }
{
    chain_low::<Tower128>(x, y, n)
}
