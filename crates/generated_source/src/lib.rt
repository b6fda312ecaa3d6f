//! The law that generated modules are source modules. No code.
#![tactic(auto)]

ghost use Rattle.generated_source.specs.Statements.{GeneratedIsSource};

/// Whatever the seed is, a generated module with at most 1,000 functions besides `@main` is a source module.
pub fn generated_is_source()
    ensures { GeneratedIsSource }
{}
