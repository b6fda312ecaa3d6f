//! How many instructions of a kind a module has.
ghost use Rattle.std.specs.Prelude.{◌≡◌, ◌≤◌, ◌<◌, ◌^◌, length, count_by};
ghost use Rattle.ir_ast.specs.Funcs.{instructions_of};
ghost use Rattle.gen_report.specs.Counts.{is_counted};
ghost use Rattle.gen_report.specs.Summaries.{instructions_with};

use ir_ast::{Block, Inst, Module, Op};

/// What is counted.
#[derive(Clone, Copy, Debug, PartialEq, Eq)]
pub(crate) enum Counted {
    Statepoints,
    Relocates,
}

impl Counted {
    fn is(self, inst: &Inst) -> bool
        ensures { result ≡ is_counted self inst.now.op }
    {
        match self {
            Counted::Statepoints => matches!(inst.op(), Op::Statepoint { .. }),
            Counted::Relocates => matches!(inst.op(), Op::GcRelocate),
        }
    }
}

/// How many of them a module has.
pub(crate) fn count(module: &Module, counted: Counted) -> u64
    ensures { result ≡ instructions_with (is_counted counted) «module».now.content }
{
    let mut found = 0;
    for func in module.funcs() {
        found += count_in(func.blocks(), counted);
    }
    found
}

fn count_in(blocks: &[Block], counted: Counted) -> u64
    requires { length (instructions_of blocks.now) < 2 ^ 30 }
    ensures value { result ≡ count_by (λ inst. is_counted counted inst.op) (instructions_of blocks.now) }
    ensures bound { result < 2 ^ 30 }
{
    let mut found = 0;
    for block in blocks {
        found += count_of(block.insts(), counted);
    }
    found
}

fn count_of(insts: &[Inst], counted: Counted) -> u64
    ensures value { result ≡ count_by (λ inst. is_counted counted inst.op) insts.now }
    ensures bound { result ≤ length insts.now }
{
    let mut found = 0;
    for inst in insts {
        if counted.is(inst) {
            found += 1;
        }
    }
    found
}
