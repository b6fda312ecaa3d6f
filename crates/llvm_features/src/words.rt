//! The words by which a line says that it has what the profile lacks.

ghost use Rattle.std.specs.Prelude.{◌≡◌};
ghost use Rattle.llvm_features.specs.Words.{is_one_of, float_words, exception_words, cast_words, atomic_words, indirect_words, cell_words, access_words, dropped_words};

use line_tokens::is_text;

pub(crate) fn is_float(word: &[u8]) -> bool
    ensures { result ≡ is_one_of float_words word.now }
{
    is_text(word, b"float")
        || is_text(word, b"double")
        || is_text(word, b"half")
        || is_text(word, b"bfloat")
        || is_text(word, b"fp128")
        || is_text(word, b"x86_fp80")
}

pub(crate) fn is_exception(word: &[u8]) -> bool
    ensures { result ≡ is_one_of exception_words word.now }
{
    is_text(word, b"invoke")
        || is_text(word, b"landingpad")
        || is_text(word, b"resume")
        || is_text(word, b"cleanuppad")
        || is_text(word, b"catchpad")
        || is_text(word, b"catchswitch")
}

pub(crate) fn is_cast(word: &[u8]) -> bool
    ensures { result ≡ is_one_of cast_words word.now }
{
    is_text(word, b"ptrtoint")
        || is_text(word, b"inttoptr")
        || is_text(word, b"ptrtoaddr")
        || is_text(word, b"addrspacecast")
}

pub(crate) fn is_atomic(word: &[u8]) -> bool
    ensures { result ≡ is_one_of atomic_words word.now }
{
    is_text(word, b"atomic")
        || is_text(word, b"volatile")
        || is_text(word, b"atomicrmw")
        || is_text(word, b"cmpxchg")
        || is_text(word, b"fence")
}

pub(crate) fn is_indirect(word: &[u8]) -> bool
    ensures { result ≡ is_one_of indirect_words word.now }
{
    is_text(word, b"indirectbr") || is_text(word, b"callbr")
}

pub(crate) fn is_cell(word: &[u8]) -> bool
    ensures { result ≡ is_one_of cell_words word.now }
{
    is_text(word, b"i64") || is_text(word, b"ptr")
}

pub(crate) fn is_access(word: &[u8]) -> bool
    ensures { result ≡ is_one_of access_words word.now }
{
    is_text(word, b"load") || is_text(word, b"store")
}

pub(crate) fn is_dropped(word: &[u8]) -> bool
    ensures { result ≡ is_one_of dropped_words word.now }
{
    is_text(word, b"source_filename")
        || is_text(word, b"target")
        || is_text(word, b"attributes")
        || is_text(word, b"declare")
}
