//! The pair of entries that a relocate names.

ghost use Rattle.std.specs.Prelude.{◌≡◌};
ghost use Rattle.ir_ast.specs.Faults.GroupShape.{entries_of};
ghost use Rattle.used_pairs.specs.Places.{pair_of, entries_pair};

use crate::helpers::Pair;
use fact_tables::insts::operand_at;
use ir_ast::Inst;

/// The two entries that a relocate names.
pub(crate) fn entries_pair(relocate: &Inst, statepoint: &Inst) -> Pair
    ensures { pair_of result ≡ entries_pair relocate.now (entries_of statepoint.now) }
{
    let entries = statepoint.live_entries();
    Pair {
        address: operand_at(entries, relocate.index_at(2) as usize),
        base: operand_at(entries, relocate.index_at(1) as usize),
    }
}
