ghost use Rattle.std.specs.Prelude.{◌^◌, ◌≤◌, length};

// What an input asks to be explained, its texts read at a level.
#[derive(Drop)]
pub struct Problem<L> {
    // The bytes of the table.
    pub bits: Vec<u8>,
    pub point: Vec<L>,
    // How many row variables the view names.
    pub view: Option<usize>,
    pub batching: Option<Vec<L>>,
    pub challenge: Option<L>,
    pub closings: Vec<Vec<L>>,
    // At most 2^20 packed elements, of sixteen bytes at most.
    pub ghost few: { length bits.items ≤ 2 ^ 24 },
}
