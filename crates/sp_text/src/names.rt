//! A name as a text spells it.

ghost use Rattle.std.specs.Prelude.{IsTrue};
ghost use Rattle.sp_text.specs.Tokens.{is_name};

/// A name without its mark, a slice of the text.
#[derive(Clone, Copy, Debug)]
pub struct Name<'a> {
    pub bytes: &'a [u8],
    pub ghost spelled: { IsTrue (is_name bytes.now) },
}
