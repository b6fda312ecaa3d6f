//! Laws of texts: the printed text of a source or a target module reads and types to that module again, and what is accepted stands
//! for a module of its form. No code.
#![tactic(auto)]

ghost use Rattle.ir_ast.specs.declared.modules.Form.{Form};
ghost use Rattle.read_back.specs.ReadsBack.{EachReadsBack};

pub mod accepted_texts;

/// The printed text of every source module within the file limit has readings without a fault, which stand for that
/// module again.
pub fn printed_text_reads_back()
    ensures { EachReadsBack Form.Source }
{}

/// And so has that of every target module, as a text of the rewritten form.
pub fn rewritten_text_reads_back()
    ensures { EachReadsBack Form.Rewritten }
{}
