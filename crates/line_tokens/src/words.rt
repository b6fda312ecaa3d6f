//! Words of choice: operators, conversions, casts, predicates; and what may be dropped.

ghost use Rattle.std.specs.Prelude.{◌≡◌, codes, IsTrue, IfSome};
ghost use Rattle.std.specs.Str.{bytes_eq};
ghost use Rattle.line_tokens.specs.Words.{binary_word, binary_flags, conversion_word, conversion_flags, cast_word, all_binaries, all_conversions, all_casts, pred_word, all_preds, spelled_by};

use crate::tokens::is_text;
use ir_ast::Pred;

/// An operator of two integers of one width (LLVM Language Reference, "Binary Operations" and "Bitwise Binary
/// Operations").
#[derive(Clone, Copy, Debug, PartialEq, Eq)]
pub enum Binary {
    Add,
    Sub,
    Mul,
    Udiv,
    Sdiv,
    Urem,
    Srem,
    And,
    Or,
    Xor,
    Shl,
    Lshr,
    Ashr,
}

/// A conversion between widths (LLVM Language Reference, "Conversion Operations").
#[derive(Clone, Copy, Debug, PartialEq, Eq)]
pub enum Conversion {
    Trunc,
    Zext,
    Sext,
}

/// A conversion from or to pointers. It is read so that the typer can refuse it.
#[derive(Clone, Copy, Debug, PartialEq, Eq)]
pub enum Cast {
    PtrToInt,
    IntToPtr,
    AddrSpaceCast,
    BitCast,
}

/// What a line may say at a place without effect. It is read and dropped.
#[derive(Clone, Copy, Debug, PartialEq, Eq)]
pub enum Dropped {
    /// Attribute groups.
    Groups,
    /// Attribute groups beside `elementtype`, which is none of them.
    BesideElementType,
    /// Attachments, `, !NAME !N`.
    Attachments,
    /// Attachments of a head, `!NAME !N`.
    HeadAttachments,
    /// `, align N`.
    Alignments,
    /// Words.
    Words(Flags),
}

/// Words that an instruction may have without effect.
#[derive(Clone, Copy, Debug, PartialEq, Eq)]
pub enum Flags {
    /// `tail` and `notail`.
    Calling,
    /// `samesign`.
    SameSign,
    /// `nuw` and `nsw`.
    Wrapping,
    /// `exact`.
    Exact,
    /// `disjoint`.
    Disjoint,
    /// `nneg`.
    NonNegative,
    /// `inbounds`, `nusw` and `nuw`.
    Bounds,
    /// None.
    Nothing,
}

impl Binary {
    /// The word of a line.
    pub fn word(self) -> &'static [u8]
        ensures { result.now ≡ binary_word self }
    {
        match self {
            Binary::Add => b"add",
            Binary::Sub => b"sub",
            Binary::Mul => b"mul",
            Binary::Udiv => b"udiv",
            Binary::Sdiv => b"sdiv",
            Binary::Urem => b"urem",
            Binary::Srem => b"srem",
            Binary::And => b"and",
            Binary::Or => b"or",
            Binary::Xor => b"xor",
            Binary::Shl => b"shl",
            Binary::Lshr => b"lshr",
            Binary::Ashr => b"ashr",
        }
    }

    /// What a line may say behind the word without effect.
    pub fn flags(self) -> Flags
        ensures { result ≡ binary_flags self }
    {
        match self {
            Binary::Add | Binary::Sub | Binary::Mul | Binary::Shl => Flags::Wrapping,
            Binary::Udiv | Binary::Sdiv | Binary::Lshr | Binary::Ashr => Flags::Exact,
            Binary::Urem | Binary::Srem | Binary::And | Binary::Xor => Flags::Nothing,
            Binary::Or => Flags::Disjoint,
        }
    }

    /// The one that a word names.
    pub fn of(bytes: &[u8]) -> Option<Binary>
        ensures first { result ≡ spelled_by binary_word all_binaries bytes.now }
        ensures word { IfSome result (λ op. IsTrue (bytes_eq bytes.now (binary_word op))) }
    {
        match bytes {
            b"add" => Some(Binary::Add),
            b"sub" => Some(Binary::Sub),
            b"mul" => Some(Binary::Mul),
            b"udiv" => Some(Binary::Udiv),
            b"sdiv" => Some(Binary::Sdiv),
            b"urem" => Some(Binary::Urem),
            b"srem" => Some(Binary::Srem),
            b"and" => Some(Binary::And),
            b"or" => Some(Binary::Or),
            b"xor" => Some(Binary::Xor),
            b"shl" => Some(Binary::Shl),
            b"lshr" => Some(Binary::Lshr),
            b"ashr" => Some(Binary::Ashr),
            _ => None,
        }
    }
}

impl Conversion {
    /// The word of a line.
    pub fn word(self) -> &'static [u8]
        ensures { result.now ≡ conversion_word self }
    {
        match self {
            Conversion::Trunc => b"trunc",
            Conversion::Zext => b"zext",
            Conversion::Sext => b"sext",
        }
    }

    /// What a line may say behind the word without effect.
    pub fn flags(self) -> Flags
        ensures { result ≡ conversion_flags self }
    {
        match self {
            Conversion::Trunc => Flags::Wrapping,
            Conversion::Zext => Flags::NonNegative,
            Conversion::Sext => Flags::Nothing,
        }
    }

    /// The one that a word names.
    pub fn of(bytes: &[u8]) -> Option<Conversion>
        ensures first { result ≡ spelled_by conversion_word all_conversions bytes.now }
        ensures word { IfSome result (λ op. IsTrue (bytes_eq bytes.now (conversion_word op))) }
    {
        match bytes {
            b"trunc" => Some(Conversion::Trunc),
            b"zext" => Some(Conversion::Zext),
            b"sext" => Some(Conversion::Sext),
            _ => None,
        }
    }
}

impl Cast {
    /// The word of a line.
    pub fn word(self) -> &'static [u8]
        ensures { result.now ≡ cast_word self }
    {
        match self {
            Cast::PtrToInt => b"ptrtoint",
            Cast::IntToPtr => b"inttoptr",
            Cast::AddrSpaceCast => b"addrspacecast",
            Cast::BitCast => b"bitcast",
        }
    }

    /// The one that a word names.
    pub fn of(bytes: &[u8]) -> Option<Cast>
        ensures first { result ≡ spelled_by cast_word all_casts bytes.now }
        ensures word { IfSome result (λ op. IsTrue (bytes_eq bytes.now (cast_word op))) }
    {
        if is_text(bytes, b"ptrtoint") {
            Some(Cast::PtrToInt)
        } else if is_text(bytes, b"inttoptr") {
            Some(Cast::IntToPtr)
        } else if is_text(bytes, b"addrspacecast") {
            Some(Cast::AddrSpaceCast)
        } else if is_text(bytes, b"bitcast") {
            Some(Cast::BitCast)
        } else {
            None
        }
    }
}

/// The predicate that a word names.
pub fn pred_in(bytes: &[u8]) -> Option<Pred>
    ensures { result ≡ spelled_by pred_word all_preds bytes.now }
{
    match bytes {
        b"eq" => Some(Pred::Eq),
        b"ne" => Some(Pred::Ne),
        b"ugt" => Some(Pred::Ugt),
        b"uge" => Some(Pred::Uge),
        b"ult" => Some(Pred::Ult),
        b"ule" => Some(Pred::Ule),
        b"sgt" => Some(Pred::Sgt),
        b"sge" => Some(Pred::Sge),
        b"slt" => Some(Pred::Slt),
        b"sle" => Some(Pred::Sle),
        _ => None,
    }
}
