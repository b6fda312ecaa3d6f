//! The names of faults.
ghost use Rattle.std.specs.Prelude.{◌≡◌};
ghost use Rattle.tool_report.specs.Names.{check_name, late_module_name, map_name, module_name, plan_name};

/// The name of a fault of a module's text.
#[tactic(auto, unfolding(crate::specs::Names::module_name))]
pub(crate) fn module_name(code: u8) -> &'static [u8]
    ensures { result.now ≡ module_name code }
{
    match code {
        1 => b"Syntax",
        2 => b"Limit",
        3 => b"NameTwice",
        4 => b"UnknownName",
        5 => b"TypeClash",
        6 => b"EntryHasPred",
        7 => b"PhiEdges",
        8 => b"NotDefinite",
        9 => b"DerivedEscapes",
        _ => late_module_name(code),
    }
}

#[tactic(auto, unfolding(crate::specs::Names::late_module_name))]
fn late_module_name(code: u8) -> &'static [u8]
    ensures { result.now ≡ late_module_name code }
{
    match code {
        10 => b"NoStrategy",
        11 => b"NoMain",
        12 => b"UnknownExtern",
        13 => b"BadLayout",
        14 => b"Reserved",
        15 => b"PointerOrder",
        16 => b"PointerCast",
        17 => b"TooManyRelocations",
        18 => b"GroupShape",
        _ => b"",
    }
}

/// The name of a fault of a plan's text.
#[tactic(auto, unfolding(crate::specs::Names::plan_name))]
pub(crate) fn plan_name(code: u8) -> &'static [u8]
    ensures { result.now ≡ plan_name code }
{
    match code {
        1 => b"Syntax",
        2 => b"Order",
        3 => b"TwoGo",
        4 => b"Limit",
        _ => b"",
    }
}

/// The name of a fault that the verifier finds.
#[tactic(auto, unfolding(crate::specs::Names::check_name))]
pub(crate) fn check_name(code: u8) -> &'static [u8]
    ensures { result.now ≡ check_name code }
{
    match code {
        1 => b"Stale",
        2 => b"BadPair",
        3 => b"Unchecked",
        4 => b"BadSame",
        5 => b"Escapes",
        6 => b"BadGroup",
        7 => b"BadDeopt",
        _ => b"",
    }
}

/// The name of a fault of a stack map's bytes.
#[tactic(auto, unfolding(crate::specs::Names::map_name))]
pub(crate) fn map_name(code: u8) -> &'static [u8]
    ensures { result.now ≡ map_name code }
{
    match code {
        1 => b"Short",
        2 => b"BadVersion",
        3 => b"BadReserved",
        4 => b"BadCount",
        5 => b"BadKind",
        6 => b"Trailing",
        _ => b"",
    }
}
