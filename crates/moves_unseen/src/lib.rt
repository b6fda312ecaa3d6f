//! Laws towards "moves are never noticed": what the address machine has of the target meaning's state. No code.
#![tactic(auto)]

ghost use Rattle.moves_unseen.specs.Statements.{AccessesAreChecked, ChecksAreAccesses, ChecksFollow, ComparisonsFollow, FramesAreEntered, GepsFollow, GroupsKeepObjects, IcmpsFollow, IntegersFollow, JumpsFollow, LinesAreTyped, LiteralsHaveNoPairs, LoadsFollow, LoadsHold, NewObjectsHold, OpeningsFollow, PairsAreCompared, PlainLinesFollow, PrintsFollow, ReadsFollow, SelectsFollow, StoresFollow, StoresHold, UnreachablesFollow, UsedPairsStand};

/// After the moves of an event each cell holds what it held: integers are the same, and each pointer cell has the address of
/// the same pointer.
pub fn groups_keep_objects()
    ensures { GroupsKeepObjects }
{}

/// A check of a pointer and its base answers what an access of the pointer does in the target meaning.
pub fn checks_are_accesses()
    ensures { ChecksAreAccesses }
{}

/// Where an access is one of a cell, the machine loads what the cell holds, and the object owns the address.
pub fn loads_hold()
    ensures { LoadsHold }
{}

/// A store into a cell keeps what all cells hold.
pub fn stores_hold()
    ensures { StoresHold }
{}

/// A new object holds zeros and null pointers, and the others what they held.
pub fn new_objects_hold()
    ensures { NewObjectsHold }
{}

/// Two pointers with bases are equal exactly where their words and the words of their bases are.
pub fn pairs_are_compared()
    ensures { PairsAreCompared }
{}

/// A line that computes integers is one step of the target meaning and one of the machine, and the relation holds behind it.
pub fn integers_follow()
    ensures { IntegersFollow }
{}

/// So is a `getelementptr`, whose result has the bases of the pointer from which it goes.
pub fn geps_follow()
    ensures { GepsFollow }
{}

/// The relation holds at the opening of each target module's run, over any map, input, plan and bound.
pub fn openings_follow()
    ensures { OpeningsFollow }
{}

/// So is a check of a pair: it traps as the access of its pointer does, or the access behind it is one of a cell.
pub fn checks_follow()
    ensures { ChecksFollow }
{}

/// So is a load behind its check; it is never poison, and both see the same access.
pub fn loads_follow()
    ensures { LoadsFollow }
{}

/// So is a store behind its check, of a number or of a pointer that is its own base; both see the same access.
pub fn stores_follow()
    ensures { StoresFollow }
{}

/// So is a comparison of two pairs, `gc_same`.
pub fn comparisons_follow()
    ensures { ComparisonsFollow }
{}

/// A pair that a line without a fault of the verifier uses stands along each path, so along that of a run.
pub fn used_pairs_stand()
    ensures { UsedPairsStand }
{}

/// An access without a fault of the verifier that a path leads to has a check directly before it.
pub fn accesses_are_checked()
    ensures { AccessesAreChecked }
{}

/// So is the print of a number: both print the same one.
pub fn prints_follow()
    ensures { PrintsFollow }
{}

/// So is a read, of the same number; it traps where the input has no more.
pub fn reads_follow()
    ensures { ReadsFollow }
{}

/// So is an `icmp` of numbers, or of pointers that are their own bases.
pub fn icmps_follow()
    ensures { IcmpsFollow }
{}

/// A target module gives each line of its functions its form, the types of its operands, and the register of its result.
pub fn lines_are_typed()
    ensures { LinesAreTyped }
{}

/// So each plain line of a verified module is one step of both, which see the same accesses: a line that computes, an access, a
/// check, a comparison, a print or a read.
pub fn plain_lines_follow()
    ensures { PlainLinesFollow }
{}

/// So is a select, whose value is that of the operand which its condition chooses.
pub fn selects_follow()
    ensures { SelectsFollow }
{}

/// A jump of a target module is one step of both, to the same block, whose phis take the same.
pub fn jumps_follow()
    ensures { JumpsFollow }
{}

/// Both trap where they execute `unreachable`.
pub fn unreachables_follow()
    ensures { UnreachablesFollow }
{}

/// The frame of a function that is called with numbers, and pointers that are their own bases, stands at its front; the machine
/// makes it of their words.
pub fn frames_are_entered()
    ensures { FramesAreEntered }
{}

/// Literals have no pairs, so the entries of a pair that stands are values or `null`.
pub fn literals_have_no_pairs()
    ensures { LiteralsHaveNoPairs }
{}
