//! What a module runs on.
ghost use Rattle.std.specs.Prelude.{◌≡◌};
ghost use Rattle.statepoint_tool.specs.Work.{form_of};

use ir_ast::Form;
use ir_machine::Shows;
use tool_words::FileName;

/// What a module runs on.
#[derive(Debug, Drop)]
pub(crate) enum Engine {
    /// The reference interpreter: a source module runs by its meaning.
    Meaning,
    /// The address machine: a source module is rewritten, and then runs over the stack map in the file of this name, or else over
    /// its own.
    Rewriter {
        map: Option<FileName>,
        shows: Shows,
    },
    /// The address machine: a rewritten module runs over the stack map in the file of this name, or else over its own. It is
    /// verified first, unless it is trusted.
    Machine {
        map: Option<FileName>,
        trust: bool,
        shows: Shows,
    },
}

impl Engine {
    /// The form of the modules that it runs.
    pub(crate) fn form(&self) -> Form
        ensures { result ≡ form_of self.now }
    {
        match self {
            Engine::Meaning | Engine::Rewriter { .. } => Form::Source,
            Engine::Machine { .. } => Form::Rewritten,
        }
    }
}
