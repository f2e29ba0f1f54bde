// The levels that a letter names, wherever a text or a slip of bytes chooses one.
#![tactic(auto)]

ghost use Rattle.level_name.specs.Names.{Names, unknown_letter_message};
ghost use Rattle.std.specs.Prelude.{Some};

use std::error::Error;
use std::fmt;

// A level by its name.
#[derive(Clone, Copy, Debug, PartialEq, Eq, Hash)]
pub enum LevelName {
    TowerByte,
    // one, two and three doublings over the tower byte
    Tower16,
    Tower32,
    Tower64,
    PolynomialByte,
}

// A letter that names no level.
#[derive(Clone, Copy, Debug, PartialEq, Eq, Hash)]
pub struct UnknownLetter(pub char);

// The level that a letter names. A `char`, as a letter is in a text: a byte is made one by its caller.
impl TryFrom<char> for LevelName {
    type Error = UnknownLetter;

    ghost try_from_gives = { Names };

    fn try_from(letter: char) -> Result<LevelName, UnknownLetter> {
        match letter {
            'b' => Ok(LevelName::TowerByte),
            'w' => Ok(LevelName::Tower16),
            'd' => Ok(LevelName::Tower32),
            'q' => Ok(LevelName::Tower64),
            'a' => Ok(LevelName::PolynomialByte),
            _ => Err(UnknownLetter(letter)),
        }
    }
}

impl fmt::Display for UnknownLetter {
    ghost output = { λ _. Some unknown_letter_message };

    fn fmt<W: fmt::Write>(&self, f: &mut fmt::Formatter<W>) -> fmt::Result {
        f.write_str("the level is none of b, w, d, q and a")
    }
}

impl Error for UnknownLetter {}
