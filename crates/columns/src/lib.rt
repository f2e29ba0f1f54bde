// Entries by their columns of 2^row_variables entries, numbered through all columns one after the other.
#![tactic(auto)]

ghost use Rattle.std.specs.Prelude.{◌≡◌, ◌+◌, ◌-◌, ◌*◌, ◌^◌, ◌<◌};
ghost use Rattle.multilinear.specs.Columns.{starts, ends};

// Columns of 2^row_variables entries, one after the other.
#[derive(Clone, Copy, Debug, PartialEq, Eq)]
pub struct Columns {
    pub row_variables: usize,
    ghost few: { row_variables < 64 },
}

impl Columns {
    // Columns over so many row variables.
    pub fn new(row_variables: usize) -> Columns
        requires { row_variables < 64 }
        ensures { result.row_variables ≡ row_variables }
    {
        Columns { row_variables }
    }

    // How many entries a column has.
    pub fn length(self) -> usize
        ensures { result ≡ 2 ^ self.row_variables }
    {
        1 << self.row_variables
    }

    // Whether an entry starts a column.
    pub fn starts(self, entry: usize) -> bool
        ensures { result ≡ starts self.row_variables entry }
    {
        entry % self.length() == 0
    }

    // Whether an entry ends a column.
    pub fn ends(self, entry: usize) -> bool
        ensures { result ≡ ends self.row_variables entry }
    {
        let length = self.length();
        entry % length == length - 1
    }

    // The last entry of a column.
    pub fn last(self, column: usize) -> usize
        requires { column * 2 ^ self.row_variables + (2 ^ self.row_variables - 1) < 2 ^ 64 }
        ensures { result ≡ column * 2 ^ self.row_variables + (2 ^ self.row_variables - 1) }
    {
        column * self.length() + (self.length() - 1)
    }
}
