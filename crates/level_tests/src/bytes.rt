ghost use Rattle.std.specs.Prelude.{◌≡◌, suc, min, [], ◌∷◌, replicate};
ghost use Rattle.level.specs.Bytes.{sixteen, from_sixteen};

use doubling::doubling::Doubling;
use level::level::Level;

// A byte, followed by fifteen that are 0.
pub fn first(byte: u8) -> [u8; 16]
    ensures { result ≡ byte ∷ replicate 15 0 }
{
    u128::from(byte).to_le_bytes()
}

// The product of the elements that two bytes make.
pub fn product<L: Level>(a: u8, b: u8) -> [u8; 16]
    ensures { result ≡ sixteen (L.arithmetic.times (from_sixteen L.log (a ∷ replicate 15 0)) (from_sixteen L.log (b ∷ replicate 15 0))) }
{
    L::from_bytes(first(a))
        .mul(L::from_bytes(first(b)))
        .to_bytes()
}

// The bytes of the element that sixteen bytes make.
pub fn round_trip<L: Level>(bytes: [u8; 16]) -> [u8; 16]
    ensures { result ≡ sixteen (from_sixteen L.log bytes) }
{
    L::from_bytes(bytes).to_bytes()
}

// The same two doublings up.
pub fn round_trip_above<L: Level>(bytes: [u8; 16]) -> [u8; 16]
    ensures { result ≡ sixteen (from_sixteen (suc (suc L.log)) bytes) }
{
    round_trip::<Doubling<Doubling<L>>>(bytes)
}

// The log widths that a level and two doublings of it tell.
pub fn widths<L: Level>() -> [u8; 3]
    ensures { result ≡ min L.log 8 ∷ min (suc L.log) 8 ∷ min (suc (suc L.log)) 8 ∷ [] }
{
    [
        L::log_width(),
        Doubling::<L>::log_width(),
        Doubling::<Doubling<L>>::log_width(),
    ]
}
