//! The three families of functions that statepoint groups are made of: statepoints, results, relocates.

ghost use Rattle.std.specs.Prelude.{◌≡◌, ◌≤◌, drop, length};
ghost use Rattle.std.specs.Option.{option_copied};
ghost use Rattle.line_tokens.specs.Families.{statepoint_name, relocate_name, result_front, result_suffix, is_suffix, is_result_name, is_family_name, is_result_of};

use crate::numbers::is_integer_word;
use crate::tokens::is_text;

/// The name of the statepoint.
#[tactic(auto, unfolding(crate::specs::Families::statepoint_name))]
pub fn statepoint_name() -> &'static [u8]
    ensures { result.now ≡ statepoint_name }
{
    b"llvm.experimental.gc.statepoint.p0"
}

/// The name of the relocates.
#[tactic(auto, unfolding(crate::specs::Families::relocate_name))]
pub fn relocate_name() -> &'static [u8]
    ensures { result.now ≡ relocate_name }
{
    b"llvm.experimental.gc.relocate.p1"
}

// What the name of a result begins with.
#[tactic(auto, unfolding(crate::specs::Families::result_front))]
fn result_front() -> &'static [u8]
    ensures { result.now ≡ result_front }
{
    b"llvm.experimental.gc.result."
}

fn behind(bytes: &[u8], count: usize) -> &[u8]
    requires { count ≤ length bytes.now }
    ensures { result.now ≡ drop count bytes.now }
{
    &bytes[count..]
}

// The end of a name that begins as those of results do.
#[tactic(auto, unfolding(crate::specs::Families::result_suffix))]
fn result_suffix(name: &[u8]) -> Option<&[u8]>
    ensures { option_copied result ≡ result_suffix name.now }
{
    let front = result_front();
    if name.starts_with(front) {
        Some(behind(name, front.len()))
    } else {
        None
    }
}

/// Whether the name is a result's.
pub fn is_result_name(name: &[u8]) -> bool
    ensures { result ≡ is_result_name name.now }
{
    match result_suffix(name) {
        Some(suffix) => is_text(suffix, b"p1") || is_integer_word(suffix),
        None => false,
    }
}

/// Whether the name is that of the result that ends so.
pub fn is_result_of(suffix: &[u8], name: &[u8]) -> bool
    ensures { result ≡ is_result_of suffix.now name.now }
{
    match result_suffix(name) {
        Some(found) => is_text(found, suffix),
        None => false,
    }
}

/// Whether the name is one of the three families.
pub fn is_family_name(name: &[u8]) -> bool
    ensures { result ≡ is_family_name name.now }
{
    is_result_name(name) || is_text(name, statepoint_name()) || is_text(name, relocate_name())
}
