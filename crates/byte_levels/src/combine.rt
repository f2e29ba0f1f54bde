ghost use Rattle.std.specs.Prelude.{◌≡◌, ◌*◌, ◌%◌};
ghost use Rattle.byte_levels.specs.Rows.{selected};

// The exclusive-or of the rows at the set bits of `a`, row 0 at its lowest bit.
pub fn combine(a: u8, rows: &[u8]) -> u8
    ensures { result ≡ selected a rows.now }
{
    let mut sum = 0;
    let mut bits = a;
    for row in rows {
        sum ^= at_lowest(bits, *row);
        bits >>= 1;
    }
    sum
}

// The row where the lowest bit is set, else 0.
fn at_lowest(bits: u8, row: u8) -> u8
    ensures { result ≡ bits % 2 * row }
{
    (bits % 2) * row
}
