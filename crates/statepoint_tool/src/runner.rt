//! What runs for a module that is asked for: the module itself, or its rewritten module.
ghost use Rattle.std.specs.Prelude.{◌≡◌, false, IfOk};
ghost use Rattle.ir_cfg.specs.SourceModules.{IsSourceModule};
ghost use Rattle.ir_cfg.specs.TargetModules.{IsTargetModule};
ghost use Rattle.ir_cfg.specs.TypedModules.{IsModuleOf};
ghost use Rattle.statepoint_tool.specs.Answers.{Agrees};
ghost use Rattle.statepoint_tool.specs.Causes.{shown_by};
ghost use Rattle.statepoint_tool.specs.Runners.{RunsAs, engine_of, module_in};
ghost use Rattle.statepoint_tool.specs.Work.{form_of, judged};

use crate::engine::Engine;
use crate::judging::verified;
use crate::refusal::Refusal;
use crate::rewrite::rewritten;
use ir_ast::Module;
use ir_machine::Shows;
use statepoint_verify::Verified;
use std::alloc::Global;
use tool_words::FileName;

/// A rewritten module that runs on the machine.
#[derive(Debug, Drop)]
pub(crate) enum Executable {
    /// As it is.
    Trusted(Module),
    Checked(Verified),
}

impl Executable {
    /// The module.
    pub(crate) fn module(&self) -> &Module
        ensures { result.now ≡ module_in self.now }
    {
        match self {
            Executable::Trusted(module) => module,
            Executable::Checked(verified) => verified.module(),
        }
    }
}

/// What runs.
#[derive(Debug, Drop)]
pub(crate) enum Runner {
    /// A source module, by its meaning.
    Meaning(Module),
    /// The rewritten module of a source module, on the machine over the stack map in the file of this name, or else over its own.
    Rewritten {
        module: Executable,
        map: Option<FileName>,
        shows: Shows,
    },
    /// The same of a rewritten module that was read.
    Machine {
        module: Executable,
        map: Option<FileName>,
        shows: Shows,
    },
}

impl Runner {
    /// What its run shows besides what the program prints.
    pub(crate) fn shows(&self) -> Shows
        ensures { result ≡ shown_by (engine_of self.now) }
    {
        match self {
            Runner::Meaning(_) => Shows {
                places: false,
                trace: false,
            },
            Runner::Rewritten { shows, .. } | Runner::Machine { shows, .. } => *shows,
        }
    }
}

/// What this engine runs for a module: a rewritten one that isn't trusted is verified, and a source module is rewritten where
/// the engine is the machine.
pub(crate) fn runner_of(alloc: Global, engine: Engine, read: Module) -> Result<Runner, Refusal>
    requires of_form { IsModuleOf (form_of engine) read.content }
    ensures judged { Agrees (λ _. read) result (judged engine read) }
    ensures engine { IfOk result (λ runner. engine_of runner ≡ engine) }
    ensures runs { IfOk result (λ runner. RunsAs read.content runner) }
{
    match engine {
        Engine::Meaning => Ok(Runner::Meaning(read)),
        Engine::Rewriter { map, shows } => rewriting_runner(alloc, read, map, shows),
        Engine::Machine { map, trust, shows } => machine_runner(alloc, read, map, trust, shows),
    }
}

fn rewriting_runner(
    alloc: Global,
    read: Module,
    map: Option<FileName>,
    shows: Shows,
) -> Result<Runner, Refusal>
    requires source { IsSourceModule read.content }
    ensures judged { Agrees (λ _. read) result (judged (Engine.Rewriter «map» shows) read) }
    ensures engine { IfOk result (λ runner. engine_of runner ≡ Engine.Rewriter «map» shows) }
    ensures runs { IfOk result (λ runner. RunsAs read.content runner) }
{
    let after = rewritten(alloc, read)?;
    Ok(Runner::Rewritten {
        module: Executable::Checked(after),
        map,
        shows,
    })
}

fn machine_runner(
    alloc: Global,
    read: Module,
    map: Option<FileName>,
    trust: bool,
    shows: Shows,
) -> Result<Runner, Refusal>
    requires target { IsTargetModule read.content }
    ensures judged { Agrees (λ _. read) result (judged (Engine.Machine «map» trust shows) read) }
    ensures engine { IfOk result (λ runner. engine_of runner ≡ Engine.Machine «map» trust shows) }
    ensures runs { IfOk result (λ runner. RunsAs read.content runner) }
{
    if trust {
        Ok(Runner::Machine {
            module: Executable::Trusted(read),
            map,
            shows,
        })
    } else {
        checked_runner(alloc, read, map, shows)
    }
}

fn checked_runner(
    alloc: Global,
    read: Module,
    map: Option<FileName>,
    shows: Shows,
) -> Result<Runner, Refusal>
    requires target { IsTargetModule read.content }
    ensures judged { Agrees (λ _. read) result (judged (Engine.Machine «map» false shows) read) }
    ensures engine { IfOk result (λ runner. engine_of runner ≡ Engine.Machine «map» false shows) }
    ensures runs { IfOk result (λ runner. RunsAs read.content runner) }
{
    let checked = verified(alloc, read)?;
    Ok(Runner::Machine {
        module: Executable::Checked(checked),
        map,
        shows,
    })
}
