//! Each run of a module gives exactly one outcome, by the source meaning and by the target meaning on objects. No code.
ghost use Rattle.std.specs.Prelude.{◌≡◌, ℕ, ℤ, List, Option};
ghost use Rattle.ir_ast.specs.Modules.{ModuleContent};
ghost use Rattle.object_meaning.specs.Finals.{IsFinal};
ghost use Rattle.object_meaning.specs.Outcomes.{Outcome};
ghost use Rattle.object_meaning.specs.SourceRuns.{SourceGives};
ghost use Rattle.object_meaning.specs.TargetRuns.{TargetGives};

/// By the source meaning a module's run over any input, under any `go` lines and any bound on steps, gives an outcome, which is a
/// return, a trap or want of steps; and it gives one alone.
pub fn source_runs_give_one()
    ensures some { (content : ModuleContent) (input : List ℤ) (go : ℕ → Option ℕ) (bound : ℕ)
        → (outcome : Outcome) × SourceGives content input go bound outcome × IsFinal outcome.end }
    ensures one { (content : ModuleContent) (input : List ℤ) (go : ℕ → Option ℕ) (bound : ℕ) (one other : Outcome)
        → SourceGives content input go bound one → SourceGives content input go bound other → one ≡ other }
{}

/// So it does by the target meaning on objects.
pub fn target_runs_give_one()
    ensures some { (content : ModuleContent) (input : List ℤ) (go : ℕ → Option ℕ) (bound : ℕ)
        → (outcome : Outcome) × TargetGives content input go bound outcome × IsFinal outcome.end }
    ensures one { (content : ModuleContent) (input : List ℤ) (go : ℕ → Option ℕ) (bound : ℕ) (one other : Outcome)
        → TargetGives content input go bound one → TargetGives content input go bound other → one ≡ other }
{}
