//! Names as places in a text.
ghost use Rattle.std.specs.Prelude.{◌≡◌};
ghost use Rattle.lexer.specs.Names.{spelled};

/// A name where it stands: the place of its first byte, and the place behind its last.
#[derive(Clone, Copy, PartialEq, Eq)]
pub struct Name {
    pub place: usize,
    pub end: usize,
}

impl Name {
    /// The bytes of the name; what lies beyond the text is left out.
    pub fn spelling(self, text: &[u8]) -> &[u8]
        ensures { result.now ≡ spelled text.now self }
    {
        let end = self.end.min(text.len());
        let place = self.place.min(end);
        &text[place..end]
    }
}
