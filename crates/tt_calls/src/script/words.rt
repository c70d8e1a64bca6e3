//! The words of a line.

ghost use Rattle.std.specs.Prelude.{◌<◌, length, OnSome};

/// The words of a line that are still to be read. Words are separated by spaces.
#[derive(Drop)]
pub struct Words<'a> {
    rest: &'a [u8],
}

impl<'a> Words<'a> {
    /// Returns the words of the line.
    pub fn new(line: &'a [u8]) -> Words<'a> {
        Words { rest: line }
    }

    /// Returns the next word, which is not empty.
    pub fn next_word(&mut self) -> Option<&'a [u8]>
        ensures { OnSome result (length self.new.rest.now < length self.old.rest.now) }
    {
        let start = self.rest.iter().position(|byte| *byte != b' ')?;
        let text = &self.rest[start..];
        let end = text
            .iter()
            .position(|byte| *byte == b' ')
            .unwrap_or(text.len());
        self.rest = &text[end..];
        Some(&text[..end])
    }
}
