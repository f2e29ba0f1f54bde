ghost use Rattle.std.specs.Prelude.{◌≡◌, MatchOption, MatchResult};
ghost use Rattle.explain_input.specs.Values.{Number, NoNumber, Letter, NoLetter};
ghost use Rattle.explain_input.specs.declared.fault.InputFault.TheVariants as fault;
ghost use Rattle.level_name.specs.Names.{letter_of};

use crate::fault::InputFault;
use level_name::LevelName;
use std::str::from_utf8;

// The number that a text of decimal digits writes.
pub(crate) fn parse_number(text: &[u8]) -> Option<usize>
    ensures { MatchOption result (NoNumber text.now) (Number text.now) }
{
    if text.starts_with(b"+") {
        return None;
    }
    from_utf8(text).ok()?.parse().ok()
}

// The level whose letter is the whole text.
pub(crate) fn parse_level(text: &[u8]) -> Result<LevelName, InputFault>
    ensures { MatchResult result (λ level. Letter text.now (letter_of level)) (λ e. (e ≡ fault.Letter) × NoLetter text.now) }
{
    match text {
        [letter] => Ok(LevelName::try_from(char::from(*letter))?),
        _ => Err(InputFault::Letter),
    }
}
