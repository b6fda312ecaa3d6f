//! The function over its versions.

ghost use Rattle.std.specs.Prelude.{◌≡◌, ◌<◌, ◌^◌, [], true, length, map, IfOk};
ghost use Rattle.ir_ast.specs.Funcs.{instructions_of, zeros_of};
ghost use Rattle.ir_cfg.specs.Graphs.{graph_of};
ghost use Rattle.rewriting_forms.specs.Names.{Naming, full_naming};
ghost use Rattle.rewriting_forms.specs.Rewritten.{rewritten_with};
ghost use Rattle.ssa_rebuild.specs.Answers.{number_of};
ghost use Rattle.ssa_rebuild.specs.Versions.{AreVersions};

use crate::blocks::all_blocks;
use crate::stream::{Stream, slots_of};
use crate::versions::Versions;
use crate::writing::Writing;
use ir_ast::{Block, Func};
use ir_cfg::Cfg;
use sp_ids::Memory;
use statepoint_insert::{Counts, Marked};
use std::alloc::Global;
use version_walk::Packed;

/// The function in SSA form again, before any inserted phi is removed: each use takes the version of its value that stands there, phis
/// named `%sp.mN` are inserted at the front of the blocks where versions meet, and groups stand in place of calls (Garbage Collection
/// Safepoints in LLVM, "RewriteStatepointsForGC"). Each line has number 0. Where memory is wanted the function is gone.
pub fn rebuild(alloc: Global, marked: Marked) -> Result<Func, Memory>
    ensures content { IfOk result (λ func. func.content ≡ rewritten_with marked.before marked.table (full_naming marked.before marked.table)) }
    ensures zeros { IfOk result (λ func. func.lines ≡ zeros_of func.content) }
{
    let cfg = Cfg::of(alloc, marked.func())?;
    let versions = Versions::of(alloc, &marked, &cfg)?;
    let func = with_versions(alloc, marked, &cfg, versions)?;
    Ok(func)
}

/// The function over these versions: whichever naming they are of, it is the rewritten function under that naming. Inserted phis are
/// named `%sp.mN`, counted over those that are there. Each line has number 0. Where memory is wanted, or the text would have 2^30
/// lines or more, the function is gone.
pub fn with_versions(
    alloc: Global,
    marked: Marked,
    cfg: &Cfg,
    versions: Versions,
) -> Result<Func, Memory>
    requires { cfg.now ≡ graph_of marked.before }
    ensures content { IfOk result (λ func. (naming : Naming) → AreVersions marked.before marked.table naming versions → func.content ≡ rewritten_with marked.before marked.table naming) }
    ensures zeros { IfOk result (λ func. func.lines ≡ zeros_of func.content) }
{
    let entries = slots_of(alloc, versions.entries.as_slice())?;
    let (func, _bases, groups) = marked.into_parts();
    let (name, answer, args, blocks) = func.into_parts();
    let after = all_blocks(
        alloc,
        cfg,
        groups.as_slice(),
        versions.joins.as_slice(),
        versions.rows.as_slice(),
        at_front(entries.as_slice()),
        blocks,
    )?;
    if !are_few(after.as_slice()) {
        return Err(Memory);
    }
    Ok(Func::of(name, answer, args, after))
}

// Whether the blocks have so few lines as a function may.
fn are_few(blocks: &[Block]) -> bool
    ensures { result ≡ true → length (instructions_of blocks.now) < 2 ^ 30 }
{
    let mut count = 0;
    for block in blocks {
        let lines = block.insts().len();
        if lines >= (1 << 30) - count {
            return false;
        }
        count += lines;
    }
    true
}

// Nothing is written, and all these entries are to come.
fn at_front(entries: &[Packed]) -> Writing<'_>
    ensures { result ≡ record { counts = record { tokens = 0; relocates = 0 }; joined = 0; body = []; entries = map number_of entries.now } }
{
    Writing {
        counts: Counts {
            tokens: 0,
            relocates: 0,
        },
        joined: 0,
        body: Stream::of(&[]),
        entries: Stream::of(entries),
    }
}
