ghost use Rattle.std.specs.Prelude.{◌≡◌, T};
ghost use Rattle.std.specs.Int.Bits.{bit_and, bit_xor};
ghost use Rattle.level.specs.Element.{cut};
ghost use Rattle.redundant_level.specs.Coordinatewise.{coordinatewise};
ghost use Rattle.redundant_level.specs.Shares.{coordinatewise_laws};

use level::level::Level;

// The mask of the forms that are made from bytes. Any other would do.
const MASK: u8 = 0x5a;

// Eight coordinates, held as two shares: their exclusive-or is the byte of the coordinates.
#[derive(Clone, Copy, Debug)]
pub struct MaskedByte {
    pub share: u8,
    pub mask: u8,
}

impl MaskedByte {
    // The element of a byte, in its form under a mask.
    pub fn new(byte: u8, mask: u8) -> Self
        ensures share { result.share ≡ bit_xor byte mask }
        ensures mask { result.mask ≡ mask }
    {
        MaskedByte {
            share: byte ^ mask,
            mask,
        }
    }

    // The byte of the coordinates. A method, as `to_bytes` is, and no `From`: `u8::from` would not say that the shares are joined.
    pub fn byte(self) -> u8
        ensures { result ≡ bit_xor self.share self.mask }
    {
        self.share ^ self.mask
    }
}

impl Level for MaskedByte {
    ghost log = { 3 };

    ghost means = { λ x. cut 3 (bit_xor x.share x.mask) };

    ghost arithmetic = { coordinatewise };

    ghost ring = { coordinatewise_laws };

    fn log_width() -> u8 {
        3
    }

    fn zero() -> Self {
        zero_shares()
    }

    fn one() -> Self {
        MaskedByte::new(0xff, MASK)
    }

    fn generator() -> Self {
        MaskedByte::new(0x10, MASK)
    }

    fn add(self, other: Self) -> Self {
        sum_shares(self, other)
    }

    fn mul(self, other: Self) -> Self {
        product_shares(self, other)
    }

    fn equals(self, other: Self) -> bool {
        same_byte(self, other)
    }

    fn to_bytes(self) -> [u8; 16] {
        u128::from(self.byte()).to_le_bytes()
    }

    fn from_bytes(bytes: [u8; 16]) -> Self {
        MaskedByte::new(bytes[0], MASK)
    }
}

fn zero_shares() -> MaskedByte
    ensures { bit_xor result.share result.mask ≡ 0 }
{
    MaskedByte::new(0, MASK)
}

fn sum_shares(x: MaskedByte, y: MaskedByte) -> MaskedByte
    ensures share { result.share ≡ bit_xor x.share y.share }
    ensures mask { result.mask ≡ bit_xor x.mask y.mask }
{
    MaskedByte {
        share: x.share ^ y.share,
        mask: x.mask ^ y.mask,
    }
}

// The product by the four partial products of the shares, so that no factor is unmasked on the way.
fn product_shares(x: MaskedByte, y: MaskedByte) -> MaskedByte
    ensures share { result.share ≡ bit_xor (bit_and x.share y.share) (bit_and x.share y.mask) }
    ensures mask { result.mask ≡ bit_xor (bit_and x.mask y.share) (bit_and x.mask y.mask) }
{
    MaskedByte {
        share: (x.share & y.share) ^ (x.share & y.mask),
        mask: (x.mask & y.share) ^ (x.mask & y.mask),
    }
}

fn same_byte(x: MaskedByte, y: MaskedByte) -> bool
    ensures agree { T result → bit_xor x.share x.mask ≡ bit_xor y.share y.mask }
    ensures found { bit_xor x.share x.mask ≡ bit_xor y.share y.mask → T result }
{
    x.byte() == y.byte()
}
