//! The law that what the rewriting gives passes the verifier, text to text. No code.
ghost use Rattle.statepoint_tool.specs.Commands.{WrittenTextsAreOk};
ghost use Rattle.statepoint_tool.specs.Passes.{AcceptedTextsPass, RewrittenTextsPass, VerifierRefusesNone};

/// The text of the rewritten module of a source module, read back, has no fault of any kind.
pub fn rewritten_texts_pass()
    ensures { RewrittenTextsPass }
{}

/// So has what is written of the rewritten module of an accepted text.
pub fn accepted_texts_pass()
    ensures { AcceptedTextsPass }
{}

/// The verifier refuses a module without a fault only for want of memory.
pub fn verifier_refuses_none()
    ensures { VerifierRefusesNone }
{}

/// Whatever the command `rewrite` writes, the command `check` says `ok` of, where it isn't longer than a file may be.
pub fn written_texts_are_ok()
    ensures { WrittenTextsAreOk }
{}
