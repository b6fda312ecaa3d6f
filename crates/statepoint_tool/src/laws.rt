//! That a command's work comes to one step, and what a yes of the verifier means to two runs. No code.
ghost use Rattle.statepoint_tool.specs.Commands.{WorkIsOne};
ghost use Rattle.statepoint_tool.specs.Headline.{PlansAreFree};

/// Whatever the files gave, the work that the words ask for comes to one output or one cause at most.
pub fn one_work()
    ensures { WorkIsOne }
{}

/// Under two plans with the same `go` lines `exec` of a verified module over its own stack map writes the same and ends the same.
pub fn plans_are_free()
    ensures { PlansAreFree }
{}
