ghost use Rattle.std.specs.Prelude.{◌≡◌, T};
ghost use Rattle.level.specs.Bytes.{sixteen, from_sixteen};
ghost use Rattle.level.specs.Element.{cut, plus};

// What every level of eight coordinates does alike when coordinate i is bit i of a byte. These are functions, and not one generic
// struct for both levels, since an exported C function takes no generic type.

// The sum: the exclusive-or of the coordinates.
pub fn sum(a: u8, b: u8) -> u8
    ensures { cut 3 result ≡ plus (cut 3 a) (cut 3 b) }
{
    a ^ b
}

// Whether all coordinates agree.
pub fn equal(a: u8, b: u8) -> bool
    ensures agree { T result → cut 3 a ≡ cut 3 b }
    ensures found { cut 3 a ≡ cut 3 b → T result }
{
    a == b
}

// The coordinates as sixteen bytes.
pub fn to_sixteen(value: u8) -> [u8; 16]
    ensures { result ≡ sixteen (cut 3 value) }
{
    u128::from(value).to_le_bytes()
}

// The eight coordinates that sixteen bytes begin with.
pub fn from_sixteen(bytes: [u8; 16]) -> u8
    ensures { cut 3 result ≡ from_sixteen 3 bytes }
{
    bytes[0]
}
