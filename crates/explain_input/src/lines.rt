ghost use Rattle.std.specs.Prelude.{◌≡◌, ◌<◌, ◌∷◌, length};
ghost use Rattle.std.specs.Iterator.{YieldsFirstRef, item_count};
ghost use Rattle.explain_input.specs.Keys.{lines, texts, readable, unreadable};

use crate::key::{Key, has_key, text_after};

// The first line of a text, and the text of the lines after it, a pair as `split_at` answers it.
fn split_line(text: &[u8]) -> (&[u8], &[u8])
    requires { 0 < length text.now }
    ensures { lines text.now ≡ result.0.now ∷ lines result.1.now }
{
    match text.iter().position(|c| *c == b'\n') {
        Some(end) => (&text[..end], &text[end + 1..]),
        None => (text, &[]),
    }
}

// The lines of a text, in their order: each ends at a newline, the last also with the text. No `split` at newlines, which gives one more
// line, an empty one, where a newline ends the text.
#[derive(Drop)]
struct Lines<'a>(&'a [u8]);

impl<'a> Iterator for Lines<'a> {
    type Item = &'a [u8];

    ghost next_gives = { YieldsFirstRef (λ s. lines s.0.now) };

    ghost remaining = { item_count (λ s. lines s.0.now) };

    fn next(&mut self) -> Option<&'a [u8]> {
        if self.0.is_empty() {
            return None;
        }
        let (line, after) = split_line(self.0);
        self.0 = after;
        Some(line)
    }
}

// The texts of the lines of a key, in their order.
#[derive(Drop)]
pub(crate) struct Texts<'a> {
    lines: Lines<'a>,
    key: Key,
}

impl<'a> Texts<'a> {
    // The texts of a key in a text.
    pub(crate) fn new(text: &'a [u8], key: Key) -> Texts<'a>
        ensures lines { result.lines.0.now ≡ text.now }
        ensures key { result.key ≡ key }
    {
        Texts {
            lines: Lines(text),
            key,
        }
    }
}

impl<'a> Iterator for Texts<'a> {
    type Item = &'a [u8];

    ghost next_gives = { YieldsFirstRef (λ s. texts s.key (lines s.lines.0.now)) };

    ghost remaining = { item_count (λ s. texts s.key (lines s.lines.0.now)) };

    fn next(&mut self) -> Option<&'a [u8]> {
        // Tried with `find_map`: what its calls leave of the lines is known by their run alone, and `returns-clause-steps` stays open.
        while let Some(line) = self.lines.next() {
            if let Some(text) = text_after(line, self.key) {
                return Some(text);
            }
        }
        None
    }
}

// Whether a line is empty or one of a key.
fn is_readable(line: &[u8]) -> bool
    ensures { result ≡ readable line.now }
{
    line.is_empty() || has_key(line)
}

// The number of the first line, counted from 1, that is neither empty nor one of a key.
pub(crate) fn first_unreadable(text: &[u8]) -> Option<usize>
    ensures { result ≡ unreadable 1 (lines text.now) }
{
    let i = Lines(text).position(|line| !is_readable(line))?;
    Some(i + 1)
}
