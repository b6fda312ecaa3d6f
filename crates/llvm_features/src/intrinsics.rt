//! Intrinsics, by their names.

ghost use Rattle.std.specs.Prelude.{◌≡◌};
ghost use Rattle.std.specs.List.{list_any};
ghost use Rattle.llvm_features.specs.Words.{is_one_of, begins_with, hint_names, hint_fronts, trap_names, picked_fronts, moved_fronts, checked_fronts, is_hint, is_written_out, is_known, is_unknown};

use line_tokens::is_text;

/// Whether an intrinsic says nothing that the meaning has.
#[tactic(auto, unfolding(crate::specs::Words::is_hint))]
pub fn is_hint(name: &[u8]) -> bool
    ensures { result ≡ is_hint name.now }
{
    has_hint_front(name) || is_hint_name(name)
}

fn has_hint_front(name: &[u8]) -> bool
    ensures { result ≡ list_any (begins_with name.now) hint_fronts }
{
    name.starts_with(b"llvm.lifetime.")
        || name.starts_with(b"llvm.dbg.")
        || name.starts_with(b"llvm.experimental.noalias.scope.decl")
}

fn is_hint_name(name: &[u8]) -> bool
    ensures { result ≡ is_one_of hint_names name.now }
{
    is_text(name, b"llvm.assume")
        || is_text(name, b"llvm.donothing")
        || is_text(name, b"llvm.sideeffect")
}

/// Whether an intrinsic ends the program.
pub fn is_trap(name: &[u8]) -> bool
    ensures { result ≡ is_one_of trap_names name.now }
{
    is_text(name, b"llvm.trap") || is_text(name, b"llvm.ubsantrap")
}

fn is_picked(name: &[u8]) -> bool
    ensures { result ≡ list_any (begins_with name.now) picked_fronts }
{
    name.starts_with(b"llvm.smax.")
        || name.starts_with(b"llvm.smin.")
        || name.starts_with(b"llvm.umax.")
        || name.starts_with(b"llvm.umin.")
        || name.starts_with(b"llvm.abs.")
}

fn is_moved(name: &[u8]) -> bool
    ensures { result ≡ list_any (begins_with name.now) moved_fronts }
{
    name.starts_with(b"llvm.usub.sat.")
        || name.starts_with(b"llvm.uadd.sat.")
        || name.starts_with(b"llvm.ctpop.")
        || name.starts_with(b"llvm.bswap.")
        || name.starts_with(b"llvm.fshl.")
        || name.starts_with(b"llvm.fshr.")
}

fn is_checked(name: &[u8]) -> bool
    ensures { result ≡ list_any (begins_with name.now) checked_fronts }
{
    name.starts_with(b"llvm.uadd.with.overflow.")
        || name.starts_with(b"llvm.usub.with.overflow.")
        || name.starts_with(b"llvm.umul.with.overflow.")
        || name.starts_with(b"llvm.sadd.with.overflow.")
        || name.starts_with(b"llvm.ssub.with.overflow.")
        || name.starts_with(b"llvm.smul.with.overflow.")
}

#[tactic(auto, unfolding(crate::specs::Words::is_written_out))]
fn is_written_out(name: &[u8]) -> bool
    ensures { result ≡ is_written_out name.now }
{
    is_picked(name) || is_moved(name) || is_checked(name)
}

#[tactic(auto, unfolding(crate::specs::Words::is_known))]
fn is_known(name: &[u8]) -> bool
    ensures { result ≡ is_known name.now }
{
    name.starts_with(b"llvm.experimental.")
        || is_hint(name)
        || is_trap(name)
        || is_written_out(name)
}

/// Whether it is an intrinsic that isn't written out.
#[tactic(auto, unfolding(crate::specs::Words::is_unknown))]
pub(crate) fn is_unknown(name: &[u8]) -> bool
    ensures { result ≡ is_unknown name.now }
{
    name.starts_with(b"llvm.") && !is_known(name)
}
