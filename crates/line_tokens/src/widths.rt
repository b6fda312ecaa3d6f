//! Widths of integer types.

ghost use Rattle.std.specs.Prelude.{IsTrue};
ghost use Rattle.line_tokens.specs.Numbers.{is_width};

/// The width of an integer type in bits, from 1 to 64 (LLVM Language Reference, "Integer Type").
#[derive(Clone, Copy, Debug, PartialEq, Eq)]
pub struct Width {
    pub bits: u32,
    pub ghost allowed: { IsTrue (is_width bits) },
}
