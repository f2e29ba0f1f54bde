ghost use Rattle.std.specs.Prelude.{◌≡◌, Some};
ghost use Rattle.explain_input.specs.Keys.{word_of, spaced, after, given, keyed, Reading};
ghost use Rattle.std.specs.Option.{option_map};

use std::fmt;

// What a line of the input gives.
#[derive(Clone, Copy, Debug, PartialEq, Eq, Hash)]
pub enum Key {
    Level,
    Bits,
    Point,
    View,
    Batching,
    Challenge,
    Closing,
}

impl Key {
    // Every key.
    const ALL: [Key; 7] = [
        Key::Level,
        Key::Bits,
        Key::Point,
        Key::View,
        Key::Batching,
        Key::Challenge,
        Key::Closing,
    ];

    // The word that a line of this key begins with: matched against a line here, and printed by `Display`.
    pub fn word(self) -> &'static str
        ensures { result.now ≡ word_of self }
    {
        match self {
            Key::Level => "level",
            Key::Bits => "bits",
            Key::Point => "point",
            Key::View => "view",
            Key::Batching => "batching",
            Key::Challenge => "challenge",
            Key::Closing => "closing",
        }
    }
}

impl fmt::Display for Key {
    ghost output = { λ key. Some (word_of key) };

    fn fmt<W: fmt::Write>(&self, f: &mut fmt::Formatter<W>) -> fmt::Result {
        f.write_str(self.word())
    }
}

// What follows a word on its line: nothing where the line ends, and else what stands after a space.
fn after_space(rest: &[u8]) -> Option<&[u8]>
    ensures { option_map (λ x. x.now) result ≡ spaced rest.now }
{
    match rest {
        [] => Some(rest),
        [b' ', text @ ..] => Some(text),
        _ => None,
    }
}

// What follows a word at the start of a line.
fn after_word<'a>(line: &'a [u8], word: &[u8]) -> Option<&'a [u8]>
    ensures { option_map (λ x. x.now) result ≡ after word.now line.now }
{
    let rest = line.strip_prefix(word)?;
    after_space(rest)
}

// The text of a line of this key.
pub(crate) fn text_after<'a>(line: &'a [u8], key: Key) -> Option<&'a [u8]>
    ensures { option_map (λ x. x.now) result ≡ after (word_of key) line.now }
{
    after_word(line, key.word().as_bytes())
}

// Whether a line is one of this key.
fn gives(line: &[u8], key: Key) -> bool
    ensures { result ≡ given key line.now }
{
    text_after(line, key).is_some()
}

// Whether a line is one of any key.
pub(crate) fn has_key(line: &[u8]) -> bool
    ensures { result ≡ keyed line.now }
{
    Key::ALL.iter().any(|key| gives(line, *key))
}

// What the lines of a text are, and what a line gives for a word.
pub fn reading_stands()
    ensures { Reading }
{}
