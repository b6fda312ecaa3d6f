//! The law that a text that is accepted stands for a module of its form. No code.
ghost use Rattle.ir_ast.specs.declared.modules.Form.{Form};
ghost use Rattle.read_back.specs.AcceptedTexts.{AcceptedIsOf};

/// The module of each text in the source form that has readings, and these no fault, is a source module.
pub fn accepted_is_source()
    ensures { AcceptedIsOf Form.Source }
{}

/// And that of a text in the rewritten form is a target module.
pub fn accepted_is_target()
    ensures { AcceptedIsOf Form.Rewritten }
{}
