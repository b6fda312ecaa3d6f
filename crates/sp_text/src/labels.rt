//! Lines that are a label or metadata alone, known without reading their tokens.

ghost use Rattle.std.specs.Prelude.{◌≡◌};
ghost use Rattle.std.specs.Option.{option_map};
ghost use Rattle.sp_text.specs.Labels.{label_of, label_in, is_metadata};
ghost use Rattle.sp_text.specs.Names.{seen_name};
ghost use Rattle.sp_text.specs.Tokens.{says_nothing};

use crate::fronts::{after_blanks, name_front};
use crate::lines::Line;
use crate::names::Name;

impl<'a> Line<'a> {
    /// The name that a label line gives: the line has a name, a `:` directly after it and nothing more but
    /// blanks and a comment. `None` where the line isn't one.
    pub fn label(&self) -> Option<Name<'a>>
        ensures { option_map seen_name result ≡ label_of self.now.bytes.now }
    {
        label_in(after_blanks(self.bytes))
    }

    /// Whether the first byte after blanks is `!`.
    pub fn is_metadata(&self) -> bool
        ensures { result ≡ is_metadata self.now.bytes.now }
    {
        match after_blanks(self.bytes).split_first() {
            Some((first, _)) => *first == b'!',
            None => false,
        }
    }
}

// The name that a label line without blanks before it gives.
fn label_in(bytes: &[u8]) -> Option<Name<'_>>
    ensures { option_map seen_name result ≡ label_in bytes.now }
{
    let end = name_front(bytes)?;
    let (name, rest) = bytes.split_at(end);
    let (first, more) = rest.split_first()?;
    if *first == b':' && says_nothing(more) {
        Some(Name { bytes: name })
    } else {
        None
    }
}

// Whether nothing stands there but blanks and at most a comment.
fn says_nothing(bytes: &[u8]) -> bool
    ensures { result ≡ says_nothing bytes.now }
{
    match after_blanks(bytes).split_first() {
        Some((first, _)) => *first == b';',
        None => true,
    }
}
